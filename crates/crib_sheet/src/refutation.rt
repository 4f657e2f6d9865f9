//! Why no plan is sure for the problem that an input spells: games that refute every player, as text or in words.
ghost use Rattle.std.specs.Prelude.{◌≡◌, ◌≤◌, ◌++◌, ◌∷◌, IfErr, [], decimal, flat_map, length, MatchResult};
ghost use Rattle.crib_text.specs.Spelling.{line_text, space};
ghost use Rattle.crib_game.specs.Spelling.{game_text};
ghost use Rattle.crib_problem.specs.Spelling.{act_line, actor_word};
ghost use Rattle.crib_run.specs.Prints.{Prints};
ghost use Rattle.crib_run.specs.Reply.{IsOutcome};
ghost use Rattle.crib_why.specs.Answer.{HasFewGames, IsRightWhy};
ghost use Rattle.crib_sheet.specs.Refute.{refute_reply, refuted_text, rows_text, suits_line, suits_sentences};
ghost use Rattle.crib_sheet.specs.Refute.{words_reply};
ghost use Rattle.crib_sheet.specs.Sheet.{SheetMakes};
ghost use Rattle.crib_sheet.specs.Told.{SheetTells};

use crate::answer::SheetJob;
use crate::tally::put_ranks;
use arrayvec::ArrayVec;
use crib_cards::{Act, Rank, Side};
use crib_game::Game;
use crib_input::{FaultCause, Reason, problem_of};
use crib_problem::Problem;
use crib_run::{Page, Status, put_cards, put_move};
use crib_text::MAX_INPUT;
use crib_why::{Why, find_why};
use crib_why_sheet::{WhyLine, put_lines, why_lines};
use itoa::Buffer;
use std::alloc::Allocator;

/// Why a plan is sure, or none is, in words.
#[derive(Drop)]
pub enum InWords<A: Allocator> {
    /// Some plan is sure.
    Sure,
    /// Rows of games that refute every player.
    Refuted(Vec<WhyLine, A>),
    /// No plan is sure, but some player who looks at suits is. These are the ranks after which suits decide.
    BySuits(ArrayVec<Rank, 13>),
}

/// Returns why a plan is sure for the problem of an input, or none is. Otherwise it returns the reason why there is no
/// answer: the refusal of the input, or an allocation that failed.
pub(crate) fn why_none<A: Allocator + Copy>(alloc: A, input: &[u8]) -> Result<Why<A>, Reason>
    requires { length input.now ≤ MAX_INPUT }
    ensures outcome { IsOutcome refute_reply (SheetMakes SheetJob.Refute input.now) result }
    ensures told { IfErr result (SheetTells SheetJob.Refute input.now) }
{
    let problem = problem_of(input)?;
    reason_of(alloc, &problem)
}

/// Returns the same in words.
pub(crate) fn why_in_words<A: Allocator + Copy>(
    alloc: A,
    input: &[u8],
) -> Result<InWords<A>, Reason>
    requires { length input.now ≤ MAX_INPUT }
    ensures outcome { IsOutcome words_reply (SheetMakes SheetJob.Why input.now) result }
    ensures told { IfErr result (SheetTells SheetJob.Why input.now) }
{
    let problem = problem_of(input)?;
    match reason_of(alloc, &problem)? {
        Why::Sure => Ok(InWords::Sure),
        Why::Refuted(games) => in_rows(alloc, &problem, games),
        Why::BySuits(ranks) => Ok(InWords::BySuits(ranks)),
    }
}

// Returns why a plan is sure for a problem, or none is.
fn reason_of<A: Allocator + Copy>(alloc: A, problem: &Problem) -> Result<Why<A>, Reason>
    ensures { MatchResult result
        (λ why. IsRightWhy problem.now why × HasFewGames why)
        (λ reason. reason ≡ Reason.Fault FaultCause.NoMemory) }
{
    match find_why(alloc, problem) {
        Ok(why) => Ok(why),
        Err(_) => Err(Reason::Fault(FaultCause::NoMemory)),
    }
}

// Returns the rows of games that refute every player.
fn in_rows<A: Allocator + Copy>(
    alloc: A,
    problem: &Problem,
    games: Vec<Game, A>,
) -> Result<InWords<A>, Reason>
    ensures { MatchResult result
        (λ words. words_reply words ≡ record { output = rows_text problem.now games.items; status = Status.No })
        (λ reason. reason ≡ Reason.Fault FaultCause.NoMemory) }
{
    match why_lines(alloc, problem, games) {
        Ok(lines) => Ok(InWords::Refuted(lines)),
        Err(_) => Err(Reason::Fault(FaultCause::NoMemory)),
    }
}

/// Puts `sure` if a plan is sure, games that refute every player, or `suits` if some player is sure and no plan is.
pub(crate) fn put_why<A: Allocator, P: Page>(page: &mut P, why: &Why<A>)
    ensures { Prints (refute_reply why.now).output (P.stand page.old) (P.stand page.new) }
{
    match why {
        Why::Sure => page.put(b"sure\n"),
        Why::Refuted(games) => put_games(page, games.as_slice()),
        Why::BySuits(ranks) => put_suits(page, ranks.as_slice()),
    }
}

/// Puts the same in words.
pub(crate) fn put_in_words<A: Allocator, P: Page>(page: &mut P, why: &InWords<A>)
    ensures { Prints (words_reply why.now).output (P.stand page.old) (P.stand page.new) }
{
    match why {
        InWords::Sure => page.put(b"Some plan is sure: cribplan solve prints one.\n"),
        InWords::Refuted(lines) => put_lines(page, lines.as_slice()),
        InWords::BySuits(ranks) => put_suits_in_words(page, ranks.as_slice()),
    }
}

/// Returns `Yes` if a plan is sure, otherwise `No`.
pub(crate) fn why_status<A: Allocator>(why: &Why<A>) -> Status
    ensures { result ≡ (refute_reply why.now).status }
{
    match why {
        Why::Sure => Status::Yes,
        Why::Refuted(_) | Why::BySuits(_) => Status::No,
    }
}

/// Returns the same of what is said in words.
pub(crate) fn in_words_status<A: Allocator>(why: &InWords<A>) -> Status
    ensures { result ≡ (words_reply why.now).status }
{
    match why {
        InWords::Sure => Status::Yes,
        InWords::Refuted(_) | InWords::BySuits(_) => Status::No,
    }
}

// Puts that suits decide, and after which ranks, if there are any.
fn put_suits<P: Page>(page: &mut P, ranks: &[Rank])
    ensures { Prints (suits_line ranks.now) (P.stand page.old) (P.stand page.new) }
{
    match ranks {
        [] => page.put(b"suits\n"),
        [_, ..] => {
            page.put(b"suits ");
            put_ranks(page, ranks);
            page.put(b"\n");
        }
    }
}

// Puts the same in words.
fn put_suits_in_words<P: Page>(page: &mut P, ranks: &[Rank])
    ensures { Prints (suits_sentences ranks.now) (P.stand page.old) (P.stand page.new) }
{
    page.put(b"No plan is sure, since a plan sees no suits. But a player who does is sure.\n");
    match ranks {
        [] => (),
        [_, ..] => {
            page.put(b"Look at the suit if they show one of these next: ");
            put_ranks(page, ranks);
            page.put(b"\n");
        }
    }
}

// Puts how many games there are, and the section of each.
fn put_games<P: Page>(page: &mut P, games: &[Game])
    ensures { Prints (refuted_text games.now) (P.stand page.old) (P.stand page.new) }
{
    page.put(b"refuted ");
    put_len(page, games.len());
    page.put(b"\n");
    put_sections(page, games);
}

// Puts the section of each game.
fn put_sections<P: Page>(page: &mut P, games: &[Game])
    ensures { Prints (flat_map game_text games.now) (P.stand page.old) (P.stand page.new) }
{
    for game in games {
        put_section(page, game);
    }
}

// Puts the section of a game.
fn put_section<P: Page>(page: &mut P, game: &Game)
    ensures { Prints (game_text game.now) (P.stand page.old) (P.stand page.new) }
{
    page.put(b"game 1\nhold");
    put_cards(page, &game.opp.hold);
    page.put(b"\nthrow");
    put_cards(page, &game.opp.throw);
    page.put(b"\nacts ");
    put_len(page, game.acts.len());
    page.put(b"\n");
    put_acts(page, game.acts.as_slice());
}

// Puts a line for each act.
fn put_acts<P: Page>(page: &mut P, acts: &[Act])
    ensures { Prints (flat_map (λ act. line_text (act_line act)) acts.now) (P.stand page.old) (P.stand page.new) }
{
    for act in acts {
        put_actor(page, act.side);
        put_move(page, act.what);
        page.put(b"\n");
    }
}

/// Puts the word for a side in the line of an act, and a space.
pub(crate) fn put_actor<P: Page>(page: &mut P, side: Side)
    ensures { Prints (actor_word side ++ space ∷ []) (P.stand page.old) (P.stand page.new) }
{
    page.put(if side == Side::Owner {
        b"own "
    } else {
        b"opp "
    });
}

/// Puts the decimal digits of a number.
pub(crate) fn put_len<P: Page>(page: &mut P, number: usize)
    ensures { Prints (decimal number) (P.stand page.old) (P.stand page.new) }
{
    page.put(Buffer::new().format(number).as_bytes());
}

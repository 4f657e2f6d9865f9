//! The heading of a sheet: the problem in words.
ghost use Rattle.std.specs.Prelude.{◌≤◌, length};
ghost use Rattle.crib_input.specs.Input.{most_bytes};
ghost use Rattle.crib_run.specs.Prints.{Prints};
ghost use Rattle.crib_game_sheet.specs.Heading.{goal_words, heading_text, how_many, opening_line};

use crate::puts::puts;
use crib_cards::Side;
use crib_problem::{Goal, Problem};
use crib_run::{Page, put_card, put_cards, put_other_score, put_role, put_small};

/// Puts the heading: both scores at the first lead and the starter, the owner's cards, the goal, and the number of
/// turns that were played already. Each is a line of at most 78 columns.
pub fn put_heading<P: Page>(page: &mut P, problem: &Problem)
    ensures { Prints (heading_text problem.now) (P.stand page.old) (P.stand page.new) }
{
    let dealer = problem.dealer();
    puts!(page: b"You are the " put_role(dealer, Side::Owner) b" at " put_small(problem.scores().owner)
        put_other_score(dealer, problem.scores().opponent) b". The starter is" put_card(problem.starter()) b".\n");
    puts!(page: b"You hold" put_cards(&problem.hold()) b" and threw" put_cards(&problem.thrown()) b".\n");
    puts!(page: b"You want " put_goal(dealer, problem.goal()) b".\n");
    put_opening(page, problem.played().len() as u8);
}

// Puts what the owner wants of a deal of this dealer.
fn put_goal<P: Page>(page: &mut P, dealer: Side, goal: Goal)
    ensures { Prints (goal_words dealer goal) (P.stand page.old) (P.stand page.new) }
{
    match goal {
        Goal::Win => page.put(b"to win"),
        Goal::Holes(holes) => puts!(page: put_how_many(holes, b"hole") b" or more in this deal"),
        Goal::Stop =>
            puts!(page: b"to keep the " put_role(dealer, Side::Opponent) b" from winning in this deal"),
    }
}

/// Puts how many of something there are, in words: `1 hole` or `2 holes`.
pub fn put_how_many<P: Page>(page: &mut P, number: u8, word: &[u8])
    requires { length word.now ≤ most_bytes }
    ensures { Prints (how_many number word.now) (P.stand page.old) (P.stand page.new) }
{
    puts!(page: put_small(number) b" " [word]);
    if number != 1 {
        page.put(b"s");
    }
}

// Puts the line of an opening with this many turns, if there is a turn.
fn put_opening<P: Page>(page: &mut P, turns: u8)
    ensures { Prints (opening_line turns) (P.stand page.old) (P.stand page.new) }
{
    match turns {
        0 => (),
        1 => page.put(b"The first turn was played. Scores and cards are those before it.\n"),
        _ => puts!(page: b"The first " put_small(turns)
            b" turns were played. Scores and cards are those before them.\n"),
    }
}

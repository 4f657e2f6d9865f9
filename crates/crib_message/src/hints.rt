//! Hints: what to write in place of a word that does not fit.
use crate::branches::are_letters;
use crate::cards::{TWO_LETTERS, card_hint, card_meant, is_like_card, suitless};
use crate::grammar::{Row, Slot};
use crate::misfit::{BAD_LINE, Misfit, refusal};
use crate::order::{
    COMMENT, announcing_hint, is_act, is_below, is_comment, is_known, is_node, order_hint,
};
use crate::scene::{Scene, Word, is_blank, text_at};
use crate::sentence::{Hint, tell, typed};
use crate::spelling::{bare, is_either, is_word, number_hint, two_numbers_hint, word_hint};
use crib_cards::read_card;
use crib_input::Cause;
use crib_text::read_number;

const ACT_A_LINE: &str = "Write each act on a line of its own.";

const SHEET: &str = "This is a printed sheet: cribplan-tidy reads it in place of a plan.";

const ONE_CARD: &str = "Write the rank and the suit of a card together.";

// What people write for a go.
const GOES: &str = "go g0 g goes says say pass passes knock knocks one gos no";

/// Returns the hint for a misfit of a line that is refused for a cause.
pub(crate) fn hint_of(scene: &Scene<'_>, misfit: &Misfit<'_>, cause: Cause) -> Hint {
    let (word, is_form) = (misfit.word.bytes, cause == BAD_LINE);
    let hint = match misfit.slot {
        Slot::Count if is_either(word, b"own", b"opp") || is_like_card(word) => tell(ACT_A_LINE),
        Slot::Count | Slot::Many if read_number(word).is_none() => announcing_hint(scene),
        _ if word.is_empty() => cards_hint(scene),
        Slot::Extra => extra_hint(scene, &misfit.word),
        Slot::Keyword => keyword_hint(scene, word),
        Slot::Side => word_hint(word, &["owner", "opponent"]),
        Slot::Aim => aim_hint(scene, word),
        Slot::Kind => word_hint(word, &["play", "see"]).or(kind_hint(scene, word)),
        Slot::Actor => actor_hint(scene, word),
        Slot::Card if is_form && bare(word).len() == 1 && scene.word_count() > 2 => tell(ONE_CARD),
        Slot::Card => card_hint(word),
        Slot::Move | Slot::Stated => move_hint(scene, misfit),
        Slot::Own if is_form => own_hint(scene, word),
        Slot::Branch => branch_hint(scene, &misfit.word, cause),
        Slot::Target => word_hint(word, &["end"]),
        slot => figure_hint(scene, slot, word, is_form),
    };
    let hint = hint.or(spare_hint(scene, misfit));
    hint.or(match (misfit.slot, bare(word)) {
        (Slot::Card | Slot::Move, []) if !word.is_empty() => tell("No card may be left open."),
        (_, []) => None,
        (Slot::Side, _) => tell("The plan is the owner's, and the other player is the opponent."),
        (Slot::Card, _) if is_form => tell(TWO_LETTERS),
        (Slot::Aim, _) => tell("Who wants not to lose writes goal stop, in a problem 2."),
        (Slot::Target, name) if is_name(name) => tell("Write end, or the number of a node."),
        (Slot::Target, _) => number_hint(word),
        _ => None,
    })
}

// A word too many, if the next one would fit in its place.
fn spare_hint(scene: &Scene<'_>, misfit: &Misfit<'_>) -> Hint {
    let last = scene.slot(scene.word_count().saturating_sub(1));
    let next = misfit.word.index.saturating_add(1);
    let is_spare = matches!(last, Slot::Extra) && fits_at(scene, misfit.slot, next);
    tell("Leave this out.").filter(|_| is_spare)
}

// Whether the word with an index fits a slot.
fn fits_at(scene: &Scene<'_>, slot: Slot, index: usize) -> bool {
    let (bytes, from) = (scene.word(index), 0);
    refusal(scene, slot, &Word { bytes, index, from }).is_none()
}

// A number, or a word in the place of one.
fn figure_hint(scene: &Scene<'_>, slot: Slot, word: &[u8], is_form: bool) -> Hint {
    let is_word = is_form && !word.iter().any(u8::is_ascii_digit);
    let hint = if is_word { None } else { number_hint(word) };
    match slot {
        Slot::Points if is_word && word.starts_with(b"o") => tell("Leave the names out."),
        Slot::Points if !is_form && word == b"121".as_slice() => tell("The game is over at 121."),
        Slot::Holes if is_either(word, b"win", b"stop") => tell("Leave out the word holes."),
        Slot::Points if scene.word_count() < 3 => two_numbers_hint(word).or(hint),
        _ => hint,
    }
}

// A word behind the last one of its line.
fn extra_hint(scene: &Scene<'_>, misfit: &Word<'_>) -> Hint {
    let (word, next) = (misfit.bytes, misfit.index.saturating_add(1));
    if let Some(row) = Row::of_keyword(word)
        && fits_at(scene, row.slot(scene.word(next), 1), next)
    {
        let keyword = row.keyword();
        return tell(format_args!("Begin a new line at the word {keyword}."));
    }
    tell(match scene.row {
        _ if is_either(word, b"own", b"opp") => ACT_A_LINE,
        _ if is_comment(word) => COMMENT,
        Row::Goal if read_number(word).is_some() => "Only goal holes has a number behind it.",
        Row::Goal if is_either(word, b"or", b"and") => "A problem has one goal: end the line.",
        Row::Act => "An act ends with its card, or with go.",
        _ if read_number(word).is_none() => return cards_hint(scene).or(tell("Leave this out.")),
        _ => return None,
    })
}

// Returns how many cards the line has, if each word behind its keyword is one.
fn cards_hint(scene: &Scene<'_>) -> Hint {
    let mut words = scene.text().split(is_blank).skip(1);
    let are_cards = matches!(scene.slot(1), Slot::Card)
        && words.all(|word| read_card(word).is_some());
    let cards = scene.word_count().saturating_sub(1);
    let mut next = text_at(scene.input, scene.number.saturating_add(1)).split(is_blank);
    let more = match (next.next().unwrap_or(b""), scene.row) {
        (_, Row::Hold) if cards == 6 => ": hold has four, and throw has the other two",
        (b"throw", Row::Hold) if cards == 2 && next.count() == 4 => ": exchange hold and throw",
        (card, _) if read_card(card).is_some() || card == scene.word(0) =>
            ": the cards on the next line belong on this one",
        _ => "",
    };
    tell(format_args!("The number of cards here is {cards}{more}.")).filter(|_| are_cards)
}

fn keyword_hint(scene: &Scene<'_>, word: &[u8]) -> Hint {
    let keyword = scene.row.keyword();
    let aim = scene.slot(1);
    let is_other = scene.row != Row::Dealer && fits_at(scene, aim, 1) && !fits_at(scene, aim, 0);
    let hint = match scene.word(1) == keyword.as_bytes() {
        _ if word.starts_with(b"{") => return tell("JSON is not read: write the expected line."),
        _ if is_either(word, b"You", b"This") => return tell(SHEET),
        _ if word == b"board".as_slice() => return tell("Write the game, and not its board."),
        false if is_known(scene) && (scene.row != Row::Acts || !is_other) => order_hint(scene),
        _ if is_below(scene) => return tell("Remove this line: what is expected is below."),
        false if is_other => tell(format_args!("Write {keyword} in place of {}.", typed(word))),
        true => tell(format_args!("Write nothing in front of {keyword}.")),
        false => order_hint(scene),
    };
    word_hint(word, &[keyword]).or(hint).or(match scene.row {
        Row::Dealer => tell("This line says who deals."),
        _ => tell(format_args!("Begin this line with the word {keyword}.")),
    })
}

// The word behind the number of a node, if a card or a branch is there or behind it.
fn kind_hint(scene: &Scene<'_>, word: &[u8]) -> Hint {
    let next = scene.word(2);
    let kind = match next.contains(&b':') {
        _ if word.contains(&b':') => return tell("Write see in front of branches."),
        _ if is_like_card(word) => return tell("Write play in front of a card."),
        true => "see",
        false if is_like_card(next) => "play",
        false => return None,
    };
    tell(format_args!("Write {kind} in place of {}.", typed(word)))
}

fn aim_hint(scene: &Scene<'_>, word: &[u8]) -> Hint {
    let number = read_number(bare(word)).or(read_number(scene.word(2)));
    tell(match number {
        Some(121) => "Write goal win to be at hole 121 first.",
        Some(number @ 1..) => return tell(format_args!("Write goal holes {number}.")),
        None if word == b"stop".as_slice() =>
            "The goal stop needs problem 2 on line 1, and a line played 0 behind the goal.",
        None if word != b"holes".as_slice() => return word_hint(word, &["win", "holes", "stop"]),
        _ => "Write goal holes and the number of holes.",
    })
}

fn actor_hint(scene: &Scene<'_>, word: &[u8]) -> Hint {
    word_hint(word, &["own", "opp"]).or(match word {
        _ if is_word(word, b"go") || read_card(word).is_some() => tell("Begin with own or opp."),
        _ if is_either(scene.word(1), b"own", b"opp") => tell("Leave this out."),
        _ if is_node(scene.text()) => tell("Nodes stand in a plan, and a game has acts: own 2C."),
        _ => order_hint(scene).or(tell("Write own for the owner, and opp for the opponent.")),
    })
}

// The card of an act or of a play node. The node to go on at may be in its place.
fn move_hint(scene: &Scene<'_>, misfit: &Misfit<'_>) -> Hint {
    let Word { bytes, index, .. } = misfit.word;
    let is_target = read_number(bytes).is_some() || bytes == b"end".as_slice();
    let next = scene.word(index.saturating_add(1));
    let is_stated = matches!(misfit.slot, Slot::Stated);
    let mut goes = GOES.split(' ');
    let is_go = goes.any(|go| is_word(bare(bytes), go.as_bytes()));
    tell(match (bytes, next) {
        _ if is_go && is_stated => "A plan states no go of the owner: leave this node out.",
        _ if is_go => "Write a go as go.",
        _ if is_stated && is_target && (next.is_empty() || is_like_card(next)) =>
            "Write the card in front of the node to go on at: 0 play 2C 1.",
        _ if is_either(bytes, b"own", b"opp") => ACT_A_LINE,
        ([rank], [suit]) if card_meant(*rank, *suit).is_some() => ONE_CARD,
        _ => return suitless(bytes).or(card_hint(bytes)),
    })
}

// The number in front of a node.
fn own_hint(scene: &Scene<'_>, word: &[u8]) -> Hint {
    order_hint(scene).or(match read_number(word) {
        _ if is_act(scene.text()) => tell("A plan has nodes, and a game has acts: 0 play 2C end."),
        Some(_) if scene.node() == 0 => tell("The first node has the number 0."),
        _ if read_number(bare(word)).is_some() => number_hint(word),
        _ => tell("A node begins with its number: 0 play 2C end."),
    })
}

fn branch_hint(scene: &Scene<'_>, branch: &Word<'_>, cause: Cause) -> Hint {
    let next = scene.word(branch.index.saturating_add(1));
    tell(match branch.target().bytes {
        [] if !next.is_empty() && (branch.bytes.contains(&b':') || next.starts_with(b":")) =>
            "Write no blank at the colon of a branch.",
        [] => return None,
        _ if cause == BAD_LINE => "Write a blank between two branches, and no other sign.",
        end if is_word(bare(end), b"end") =>
            "Leave this branch out: a letter in no branch leads to the end.",
        letters if are_letters(letters) =>
            "Write the letters in front of the colon, and the node behind it.",
        name if is_name(name) => "Write the number of a node, not a name.",
        number => return number_hint(number),
    })
}

// Whether a word is a name: letters alone, and not only one, which may be a mistyped digit.
fn is_name(word: &[u8]) -> bool {
    word.len() > 1 && word.iter().all(u8::is_ascii_alphabetic)
}

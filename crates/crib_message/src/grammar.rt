//! The grammar as one table: the lines of each section, and the words of each line (docs/FORMATS.md, "Grammar").
use crate::grammar::Row::{
    Act, Acts, Dealer, End, Game, Goal, Hold, Node, Nodes, Plan, Played, Problem, Score, Starter,
    Throw, Turns,
};
use crate::grammar::Slot::{
    Actor, Aim, Branch, Card, Count, Extra, Holes, Keyword, Kind, Many, Move, Own, Points, Side,
    Stated, Target, Version,
};
use crate::scene::{Section, Spot};

/// A line of a section, by its keyword.
#[derive(Clone, Copy, PartialEq, Eq)]
pub(crate) enum Row {
    Problem,
    Dealer,
    Score,
    Starter,
    Hold,
    Throw,
    Goal,
    Played,
    Plan,
    Nodes,
    /// A node of a plan.
    Node,
    Game,
    Acts,
    Turns,
    /// An act of a game, or a turn of an opening or since.
    Act,
    /// No line: the sections are over.
    End,
}

/// What a word of a line may be.
#[derive(Clone, Copy)]
pub(crate) enum Slot {
    /// The first word of the line.
    Keyword,
    /// The version of a section.
    Version,
    /// `owner` or `opponent`.
    Side,
    /// A score, 0 to 120.
    Points,
    /// A card.
    Card,
    /// `win`, `holes` or `stop`.
    Aim,
    /// The number of holes of a goal.
    Holes,
    /// The number of acts or turns that follow, 0 to 32.
    Count,
    /// The number of nodes that follow, 0 to 65535.
    Many,
    /// The number of a node, in front of it.
    Own,
    /// `play` or `see`.
    Kind,
    /// The card of a play node.
    Stated,
    /// The node behind a card, or `end`.
    Target,
    /// A branch of a see node.
    Branch,
    /// `own` or `opp`.
    Actor,
    /// A card or `go`.
    Move,
    /// Nothing: the line is over there.
    Extra,
}

// The lines with keywords.
const KEYWORDS: [Row; 13] = [
    Problem, Dealer, Score, Starter, Hold, Throw, Goal, Played, Plan, Nodes, Game, Acts, Turns,
];

impl Row {
    /// Returns the line that is at this spot. The last one of a section may be there many times.
    pub(crate) fn at(spot: Spot) -> Row {
        let rows: &[Row] = match spot.section {
            Section::Problem => &[
                Problem, Dealer, Score, Starter, Hold, Throw, Goal, Played, Act,
            ],
            Section::Plan => &[Plan, Nodes, Node],
            Section::Game => &[Game, Hold, Throw, Acts, Act],
            Section::Turns => &[Turns, Act],
            Section::After => &[End],
        };
        let index = spot.number.saturating_sub(1) as usize;
        rows.get(index).or(rows.last()).copied().unwrap_or(End)
    }

    /// Returns what is at the word with this index, from 0, of a line with this second word.
    pub(crate) fn slot(self, second: &[u8], index: usize) -> Slot {
        let slots: &[Slot] = match self {
            Problem | Plan | Game => &[Keyword, Version],
            Dealer => &[Keyword, Side],
            Score => &[Keyword, Points, Points],
            Starter => &[Keyword, Card],
            Hold => &[Keyword, Card, Card, Card, Card],
            Throw => &[Keyword, Card, Card],
            Goal if second == b"holes".as_slice() => &[Keyword, Aim, Holes],
            Goal => &[Keyword, Aim],
            Played | Acts | Turns => &[Keyword, Count],
            Nodes => &[Keyword, Many],
            Node if second == b"play".as_slice() => &[Own, Kind, Stated, Target],
            Node if second == b"see".as_slice() && index > 1 => return Branch,
            Node => &[Own, Kind],
            Act => &[Actor, Move],
            End => &[],
        };
        slots.get(index).copied().unwrap_or(Extra)
    }

    /// Returns the keyword of a line that begins with one.
    pub(crate) fn keyword(self) -> &'static str {
        self.pattern().split(' ').next().unwrap_or("")
    }

    /// Returns the line with this keyword.
    pub(crate) fn of_keyword(word: &[u8]) -> Option<Row> {
        let mut rows = KEYWORDS.into_iter();
        rows.find(|row| row.keyword().as_bytes() == word)
    }

    /// Returns what the line may be.
    pub(crate) fn pattern(self) -> &'static str {
        match self {
            Problem => "problem 1 or problem 2",
            Dealer => "dealer owner or dealer opponent",
            Score => "score and two numbers from 0 to 120, the owner's and the opponent's",
            Starter => "starter and a card",
            Hold => "hold and four cards",
            Throw => "throw and two cards",
            Goal => "goal win, goal holes N or, in a problem 2, goal stop",
            Played => "played and the number of turns that follow",
            Plan => "plan 1",
            Nodes => "nodes and the number of nodes that follow",
            Node => "a node, such as 0 play 2C end or 0 see A2:1",
            Game => "game 1",
            Acts => "acts and the number of acts that follow",
            Turns => "turns and the number of turns that follow",
            Act => "own or opp, and then a card or go",
            End => "the end of the input",
        }
    }
}

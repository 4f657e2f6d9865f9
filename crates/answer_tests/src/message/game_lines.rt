//! Slips in the lines of a game.
use super::messages::are_explained;
use crib_input::Sections;

const LINES: &str = r#"
# problem 1|dealer owner|score 60 0|starter KD|hold 2C 3C 4C 5C|throw 6C 6D|goal win|
> game 1|hold 7C 8C 9C|
the end of the line is not expected here; expected: hold and four cards. The number of cards here is 3.
> game 1|hold 7C 8C 9C 1OC|
"1OC" is not a card. Write ten as T: TC.
> game 1|opp hold 7C 8C 9C TC|
"opp" is not expected here; expected: hold and four cards. Write nothing in front of hold.
> game 1|throw 7C 8C|
"throw" is not expected here; expected: hold and four cards. The line hold is missing.
>
the input ends here; expected: game 1. This command reads a problem and then a game.
> plan 1|nodes 0|
"plan" is not expected here; expected: game 1. This command reads a problem and then a game.
> game 1|hold 7C 8C 9C TC|throw 7D|
the end of the line is not expected here; expected: throw and two cards. The number of cards here is 1.
> board 1|
"board" is not expected here; expected: game 1. Write the game, and not its board.
> fails stuck|game 1|
"fails" is not expected here; expected: game 1. Remove this line: what is expected is below.
+ game 1|hold 7C 8C 9C TC|throw 7D 8D|
> acts 2|own 2C|opp one for go|
"one" is not expected here; expected: own or opp, and then a card or go. Write a go as go.
> acts 2|own 2C|opp pass|
"pass" is not a card. Write a go as go.
> acts 2|own 2C|pone 7C|
"pone" is not expected here; expected: own or opp, and then a card or go.
Write own for the owner, and opp for the opponent.
> acts 2|own 2C|7C opp|
"7C" is not expected here; expected: own or opp, and then a card or go. Begin with own or opp.
> acts 2|OWN 2C|
"OWN" is not expected here; expected: own or opp, and then a card or go. Write small letters: own.
> acts 2|own-2C|
"own-2C" is not expected here; expected: own or opp, and then a card or go. Write a blank behind the word own.
> acts 2|1 own 2C|
"1" is not expected here; expected: own or opp, and then a card or go. Leave this out.
> acts 2|own 2C 2|
"2" is not expected here; expected: own or opp, and then a card or go. An act ends with its card, or with go.
> acts 2|own: 2C|
"own:" is not expected here; expected: own or opp, and then a card or go. Write no other sign at the word own.
> acts 2|go|
"go" is not expected here; expected: own or opp, and then a card or go. Begin with own or opp.
> acts 2|own 2C||opp 7C|
an empty line is not expected here; expected: own or opp, and then a card or go. Remove it.
> acts 2|own plays 2C|
"plays" is not expected here; expected: own or opp, and then a card or go. Leave this out.
> acts 2|own 2C|opp 7C||
an empty line is after the last section; expected: the end of the input. Remove it.
> acts 2|own 2C|opp 7C|reached|
"reached" is after the last section; expected: the end of the input. Leave this line out.
> acts 2|own 2C|opp 7C
the last line is cut short; expected: LF at its end. Every line ends with LF, the last one too: press Enter behind it.
> acts two|
"two" is not a valid number here; expected: a number from 0 to 32. Write acts 0.
> acts 1|own 2C|opp 7C|
"opp" is after the last section; expected: the end of the input.
Line 11 says acts 1, but the number of lines for it is 2.
> acts 2|own 2C|
the input ends here; expected: own or opp, and then a card or go.
Line 11 says acts 2, but the number of lines for it is 1.
> own 2C|
"own" is not expected here; expected: acts and the number of acts that follow. The line acts 1 is missing.
> turns 1|own 2C|
"turns" is not expected here; expected: acts and the number of acts that follow. Write acts in place of "turns".
> acts 1|own 2c|
"2c" is not a card. Write a card in capital letters: 2C.
> acts 1|own 2C opp 7C|
"opp" is not expected here; expected: own or opp, and then a card or go. Write each act on a line of its own.
> acts 1|own 10C|
"10C" is not a card. Write ten as T: TC.
> acts 1|opp 10|
"10" is not a card. Write the suit behind the rank, as in TS.
> acts 1|opp ?|
"?" is not a card. No card may be left open.
> acts 1|opp t|
"t" is not a card. Write the suit behind the rank, as in TS.
> acts 1|opp 11|
"11" is not a card. Write the suit behind the rank, as in JS.
> acts 1|opp 10c|
"10c" is not a card. Write ten as T: TC.
> acts 1|own 2C 0|
"0" is not expected here; expected: own or opp, and then a card or go. An act ends with its card, or with go.
> acts 1|Ann 2C|
"Ann" is not expected here; expected: own or opp, and then a card or go.
Write own for the owner, and opp for the opponent.
> acts|own 2C|
the end of the line is not expected here; expected: acts and the number of acts that follow. Write acts 1.
> moves 1|own 2C|
"moves" is not expected here; expected: acts and the number of acts that follow. Write acts in place of "moves".
> acts 1|own 2 C|
"2" is not expected here; expected: own or opp, and then a card or go. Write the rank and the suit of a card together.
> acts 1|own|
the end of the line is not expected here; expected: own or opp, and then a card or go
> acts 1|you 2C|
"you" is not expected here; expected: own or opp, and then a card or go.
Write own for the owner, and opp for the opponent.
> acts 1||
an empty line is not expected here; expected: own or opp, and then a card or go. Remove it.
> acts 1|0 play 2C end|
"0" is not expected here; expected: own or opp, and then a card or go.
Nodes stand in a plan, and a game has acts: own 2C.
"#;

#[test]
fn explains_games(rt: HostRuntime) {
    are_explained(&rt, Sections::Played, LINES);
}

const UNDER_PLANS: &str = r#"
# problem 1|dealer owner|score 60 0|starter KD|hold 2C 3C 4C 5C|throw 6C 6D|goal win|
> game 1|hold 7C 8C 9C TC|throw 7D 8D|acts 1|own 2C|plan 1|nodes 0|
"game" is not expected here; expected: plan 1. This command reads a problem, then a plan and then a game.
> plan 1|nodes 0|
the input ends here; expected: game 1. This command reads a problem, then a plan and then a game.
"#;

#[test]
fn explains_games_under_plans(rt: HostRuntime) {
    are_explained(&rt, Sections::PlayedUnder, UNDER_PLANS);
}

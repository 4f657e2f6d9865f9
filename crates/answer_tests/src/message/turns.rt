//! Messages of refused turns since a problem, and of refused lines of their section.
use super::messages::{are_explained, are_said};
use crib_input::Sections;

const TURNS: &str = r#"
# problem 1|dealer opponent|score 0 0|starter 3H|hold TC 9C 2C 8C|throw 4S 6S|goal win|
+ plan 1|nodes 4|0 play TC 1|1 play 9C 2|2 play 2C 3|3 play 8C end|
> turns 1|opp TD|
cribplan: line 15, line 2 of the turns: the opponent is not the side to move: it is the owner's turn,
and the count is 0; the pone leads, and line 2 says who deals
  15 | opp TD
     | ^^^
> turns 2|own TC|own 9C|
cribplan: line 16, line 3 of the turns: the owner is not the side to move: it is the opponent's turn,
and the count is 10; a card of theirs is missing before this line
  16 | own 9C
     | ^^^
> turns 3|own TC|opp TD|own TC|
cribplan: line 17, line 4 of the turns: TC is not held: TC was played (line 15); the owner still holds 2C 8C 9C
  17 | own TC
     |     ^^
> turns 1|own KC|
cribplan: line 15, line 2 of the turns: KC is not held: the owner still holds 2C 8C 9C TC
  15 | own KC
     |     ^^
> turns 2|own TC|opp 3H|
cribplan: line 16, line 3 of the turns: 3H is already used: 3H is the starter (line 4)
  16 | opp 3H
     |     ^^
> turns 4|own TC|opp TD|own 9C|opp TD|
cribplan: line 18, line 5 of the turns: TD is already used: TD was played (line 16)
  18 | opp TD
     |     ^^
> turns 4|own TC|opp TD|own 9C|opp KD|
cribplan: line 18, line 5 of the turns: a card that does not fit: KD counts 10, the count is 29, and 2 is left to 31;
"opp go" would pass the turn to the owner
  18 | opp KD
     |     ^^
> turns 1|own go|
cribplan: line 15, line 2 of the turns: go is not allowed while a card fits: the count is 0, so every card fits;
the owner holds 2C 8C 9C TC, which fit
  15 | own go
     |     ^^
> turns 2|own TC|opp go|
cribplan: line 16, line 3 of the turns: go is a turn that no deal lets the opponent show: the count is 10,
so every card fits; a go is said at a count of 22 or more
  16 | opp go
     |     ^^
> turns 6|own TC|opp TD|own 9C|opp go|own 2C|opp 2D|
cribplan: line 20, line 7 of the turns: 2D is a turn that no deal lets the opponent show:
the opponent said go at a count of 29 (line 18), so each of their cards counts 3 or more
  20 | opp 2D
     |     ^^
> turns 3|own TC|opp TD|own 8C|
cribplan: line 17, line 4 of the turns: act 3 strays from the plan: node 1 of the plan (line 11) states 9C,
and the owner plays 8C
  17 | own 8C
     |     ^^
> turns 11|own TC|opp TD|own 9C|opp go|own 2C|opp KD|own 8C|opp KH|opp go|opp QS|opp QH|
cribplan: line 25, line 12 of the turns: act 11 comes after the end: all eight cards are played (line 24)
  25 | opp QH
     |     ^^
>
cribplan: line 14, line 1 of the turns: the input ends here; expected: turns and the number of turns that follow.
This command reads a problem, then a plan and then turns.
> turns 2|own TC|
cribplan: line 16, line 3 of the turns: the input ends here; expected: own or opp, and then a card or go.
Line 14 says turns 2, but the number of lines for it is 1.
> turns 1|own TC|opp TD|
cribplan: line 16: "opp" is after the last section; expected: the end of the input. Line 14 says turns 1,
but the number of lines for it is 2.
  16 | opp TD
     | ^^^
> acts 1|own TC|
cribplan: line 14, line 1 of the turns: "acts" is not expected here; expected:
turns and the number of turns that follow. Turns begin with the line turns N; without any it is turns 0.
  14 | acts 1
     | ^^^^
# problem 1|dealer opponent|score 0 0|starter 3H|hold TC 9C 2C 8C|throw 4S 6S|goal win|
> plan 1|nodes 1|0 play TC end|turns 3|own TC|opp TD|own 9C|
cribplan: line 14, line 4 of the turns: act 3 strays from the plan: the plan is at its end there, and states no card,
and the owner plays 9C
  14 | own 9C
     |     ^^
> plan 1|nodes 2|0 see A:1|1 play TC end|turns 1|own TC|
cribplan: line 13, line 2 of the turns: act 1 strays from the plan: node 0 of the plan (line 10) is a see node,
and states no card, and the owner plays TC
  13 | own TC
     |     ^^
> plan 1|nodes 4|0 play TC 1|1 see A:2 T:3|2 play 8C end|3 play 2C end|turns 3|own TC|opp TD|own 9C|
cribplan: line 17, line 4 of the turns: act 3 strays from the plan: node 3 of the plan (line 13) states 2C,
and the owner plays 9C
  17 | own 9C
     |     ^^
# problem 1|dealer opponent|score 0 119|starter 3H|hold TC 9C 2C 8C|throw 4S 6S|goal win|
+ plan 1|nodes 4|0 play TC 1|1 play 9C 2|2 play 2C 3|3 play 8C end|
> turns 3|own TC|opp TD|own 9C|
cribplan: line 17, line 4 of the turns: act 3 comes after the end: the opponent reached hole 121 (line 16)
  17 | own 9C
     |     ^^
# problem 2|dealer opponent|score 0 0|starter 3H|hold TC 9C 2C 8C|throw 4S 6S|goal win|
+ played 4|own TC|opp TD|own 9C|opp go|plan 1|nodes 2|0 play 2C 1|1 play 8C end|
> turns 1|own 8C|
cribplan: line 18, line 2 of the turns: a card that does not fit: 8C counts 8, the count is 29, and 2 is left to 31;
the owner holds 2C 8C, of which 2C fits
  18 | own 8C
     |     ^^
> turns 1|own go|
cribplan: line 18, line 2 of the turns: go is not allowed while a card fits: the count is 29,
so a card fits if it counts 2 or less; the owner holds 2C 8C, of which 2C fits
  18 | own go
     |     ^^
> turns 1|own 9C|
cribplan: line 18, line 2 of the turns: 9C is not held: 9C was played (line 11); the owner still holds 2C 8C
  18 | own 9C
     |     ^^
> turns 1|opp go|
cribplan: line 18, line 2 of the turns: the opponent is not the side to move: the opponent said go already (line 12),
and each side says go once a count; it is the owner's turn, and the count is 29; leave this line out
  18 | opp go
     | ^^^
> turns 2|own 2C|opp 2D|
cribplan: line 19, line 3 of the turns: 2D is a turn that no deal lets the opponent show:
the opponent said go at a count of 29 (line 12), so each of their cards counts 3 or more
  19 | opp 2D
     |     ^^
> turns 2|own 2C|own 8C|
cribplan: line 19, line 3 of the turns: the owner is not the side to move: the count was 31, where nobody says go,
and begins again; it is the opponent's turn, and the count is 0; a card of theirs is missing before this line
  19 | own 8C
     | ^^^
> turns 3|own 2C|opp KD|own 2C|
cribplan: line 20, line 4 of the turns: 2C is not held: 2C was played (line 18); the owner still holds 8C
  20 | own 2C
     |     ^^
"#;

#[test]
fn says_why_turns_are_refused(rt: HostRuntime) {
    are_said(&rt, Sections::Turns, TURNS);
}

const LINES: &str = r#"
# problem 1|dealer opponent|score 0 0|starter 3H|hold TC 9C 2C 8C|throw 4S 6S|goal win|
+ plan 1|nodes 4|0 play TC 1|1 play 9C 2|2 play 2C 3|3 play 8C end|
> turn 1|own TC|
"turn" is not expected here; expected: turns and the number of turns that follow. Did you mean turns?
> Turns 1|own TC|
"Turns" is not expected here; expected: turns and the number of turns that follow. Write small letters: turns.
> turns|
the end of the line is not expected here; expected: turns and the number of turns that follow. Write turns 0.
> turns x|
"x" is not a valid number here; expected: a number from 0 to 32. Write turns 0.
> turns 33|
"33" is not a valid number here; expected: a number from 0 to 32
> turns 1 own TC|
"own" is not expected here; expected: turns and the number of turns that follow. Write each act on a line of its own.
> turns1|
"turns1" is not expected here; expected: turns and the number of turns that follow.
Write a blank behind the word turns.
> own TC|
"own" is not expected here; expected: turns and the number of turns that follow. Turns begin with the line turns N;
without any it is turns 0.
> played 0|
"played" is not expected here; expected: turns and the number of turns that follow. Turns begin with the line turns N;
without any it is turns 0.
> game 1|hold TD KD KH QS|
"game" is not expected here; expected: turns and the number of turns that follow. This command reads a problem,
then a plan and then turns.
> plan 1|nodes 0|
"plan" is not expected here; expected: turns and the number of turns that follow. This command reads a problem,
then a plan and then turns.
> problem 1|
"problem" is not expected here; expected: turns and the number of turns that follow. An input has one problem.
> nodes 0|
"nodes" is not expected here; expected: turns and the number of turns that follow.
This command reads a problem, then a plan and then turns.
> 4 play 2C end|turns 0|
"4" is not expected here; expected: turns and the number of turns that follow. Line 9 says nodes 4,
but the number of lines for it is 5.
> turns 0||
an empty line is after the last section; expected: the end of the input. Remove it.
> turns 0|own TC|
"own" is after the last section; expected: the end of the input. Line 14 says turns 0,
but the number of lines for it is 1.
> turns 0|turns 1|own TC|
"turns" is after the last section; expected: the end of the input. This command reads a problem,
then a plan and then turns.
> turns 2|own TC|turns 1|opp TD|
"turns" is not expected here; expected: own or opp, and then a card or go. Line 14 says turns 2,
but the number of lines for it is 1.
> turns 1|own tc|
"tc" is not a card. Write a card in capital letters: TC.
> turns 1|own|
the end of the line is not expected here; expected: own or opp, and then a card or go
> turns 1|me TC|
"me" is not expected here; expected: own or opp, and then a card or go.
Write own for the owner, and opp for the opponent.
> turns 1|0 play TC end|
"0" is not expected here; expected: own or opp, and then a card or go. Nodes stand in a plan, and a game has acts:
own 2C.
> turns 1
the last line is cut short; expected: LF at its end. Every line ends with LF, the last one too: press Enter behind it.
# problem 1|dealer opponent|score 0 0|starter 3H|hold TC 9C 2C 8C|throw 4S 6S|goal win|
> turns 0|
"turns" is not expected here; expected: plan 1. This command reads a problem, then a plan and then turns.
> plan 1|nodes 5|0 play TC 1|1 play 9C 2|2 play 2C 3|3 play 8C end|turns 0|
"turns" is not expected here; expected: a node, such as 0 play 2C end or 0 see A2:1. Line 9 says nodes 5,
but the number of lines for it is 4.
> plan 1|nodes 3|0 play TC 1|1 play 9C 2|2 play 2C end|3 play 8C end|turns 0|
"3" is not expected here; expected: turns and the number of turns that follow. Line 9 says nodes 3,
but the number of lines for it is 4.
"#;

#[test]
fn explains_lines_of_turns(rt: HostRuntime) {
    are_explained(&rt, Sections::Turns, LINES);
}

// Lines of turns where a command reads none.
const UNREAD: &str = r#"
# problem 1|dealer opponent|score 0 0|starter 3H|hold TC 9C 2C 8C|throw 4S 6S|goal win|
> plan 1|nodes 0|turns 0|
"turns" is after the last section; expected: the end of the input. This command reads a problem and then a plan.
> plan 1|nodes 1|turns 0|
"turns" is not expected here; expected: a node, such as 0 play 2C end or 0 see A2:1. Line 9 says nodes 1,
but the number of lines for it is 0.
> turns 0|
"turns" is not expected here; expected: plan 1. This command reads a problem and then a plan.
"#;

#[test]
fn explains_turns_that_are_not_read(rt: HostRuntime) {
    are_explained(&rt, Sections::Question, UNREAD);
}

//! Slips in the cards and the goal of a problem, and in the lines behind it.
use super::messages::are_explained;
use crib_input::Sections;

const LINES: &str = r#"
# problem 1|dealer owner|score 0 0|starter KD|
> hold TS 4D 9H JC.|
"JC." is not a card. Write no other sign at a card: JC.
> hand TS 4D 9H JC|
"hand" is not expected here; expected: hold and four cards. Write hold in place of "hand".
> hold: TS 4D 9H JC|
"hold:" is not expected here; expected: hold and four cards. Write no other sign at the word hold.
> hold ts 4d 9h jc|
"ts" is not a card. Write a card in capital letters: TS.
> hold T S 4 D 9 H J C|
"T" is not expected here; expected: hold and four cards. Write the rank and the suit of a card together.
> hold S10 4D 9H JC|
"S10" is not a card. Write ten as T: TS.
> hold 10 4D 9H JC|
"10" is not a card. Write ten as T: TS.
> hold 10S 4D 9H JC|
"10S" is not a card. Write ten as T: TS.
> hold TS, 4D, 9H, JC|
"TS," is not a card. Write no other sign at a card: TS.
> hold TS4D9HJC|
"TS4D9HJC" is not expected here; expected: hold and four cards. Write a blank between two cards: TS 4D.
> hold TS 4D 9H|
the end of the line is not expected here; expected: hold and four cards. The number of cards here is 3.
> hold TS 4D 9H JC 5C 6C|
"5C" is not expected here; expected: hold and four cards.
The number of cards here is 6: hold has four, and throw has the other two.
> hold 6C 6D|throw 2C 3C 4C 5C|
the end of the line is not expected here; expected: hold and four cards.
The number of cards here is 2: exchange hold and throw.
> hold 2S 8D|8H 8S|
the end of the line is not expected here; expected: hold and four cards.
The number of cards here is 2: the cards on the next line belong on this one.
> hold 2S 8D|hold 8H 8S|
the end of the line is not expected here; expected: hold and four cards.
The number of cards here is 2: the cards on the next line belong on this one.
> hold 2S 8D ? 8S|
"?" is not a card. No card may be left open.
> > hold 2C 3C 4C 5C|
">" is not expected here; expected: hold and four cards. Write nothing in front of hold.
> hold KD 4D 9H JC|
KD is already used, on line 4
> hold 4D 4D 9H JC|
4D is already used on this line
> throw 6C 6D|
"throw" is not expected here; expected: hold and four cards. The line hold is missing.
> hold 2C 3C 4C 5C|throw 6C|
the end of the line is not expected here; expected: throw and two cards. The number of cards here is 1.
> hold 2C 3C 4C 5C|throw 6C 2C|
2C is already used, on line 5
> hold 2C 3C 4C 5C|goal win|
"goal" is not expected here; expected: throw and two cards. The line throw is missing.
> hold none|
"none" is not expected here; expected: hold and four cards. Write a card as two letters, its rank and its suit: TS.
> 2C 3C 4C 5C|
"2C" is not expected here; expected: hold and four cards. Begin this line with the word hold.
> hold hold 2C 3C 4C 5C|
"hold" is not expected here; expected: hold and four cards. Leave this out.
> starter KD|hold 2C 3C 4C 5C|
"starter" is not expected here; expected: hold and four cards. This line stands twice: leave one out.
> hold 2C DC VC RC|
"DC" is not a card. Write a jack, a queen and a king as J, Q and K: QC.
> notes|hold 2C 3C 4C 5C|
"notes" is not expected here; expected: hold and four cards. Remove this line: what is expected is below.
> my hold 2C 3C 4C 5C|
"my" is not expected here; expected: hold and four cards. Write nothing in front of hold.
> hold 2C 3C 4C 5C|discard 6C 6D|
"discard" is not expected here; expected: throw and two cards. Write throw in place of "discard".
# problem 1|dealer owner|score 60 0|starter KD|hold 2C 3C 4C 5C|throw 6C 6D|
> goal holes five|
"five" is not a valid number here; expected: 1 to 61, what is left from 60 to hole 121.
Write a number in digits alone.
> goal holes win|
"win" is not a valid number here; expected: 1 to 61, what is left from 60 to hole 121. Leave out the word holes.
> goal not lose|
"not" is not expected here; expected: goal win, goal holes N or, in a problem 2, goal stop.
Who wants not to lose writes goal stop, in a problem 2.
> goal holes12|
"holes12" is not expected here; expected: goal win, goal holes N or, in a problem 2, goal stop.
Write a blank behind the word holes.
> goal holes 12 x|
"x" is not expected here; expected: goal win, goal holes N or, in a problem 2, goal stop. Leave this out.
> goal = win|
"=" is not expected here; expected: goal win, goal holes N or, in a problem 2, goal stop. Leave this out.
> goal wins|
"wins" is not expected here; expected: goal win, goal holes N or, in a problem 2, goal stop. Did you mean win?
> goals win|
"goals" is not expected here; expected: goal win, goal holes N or, in a problem 2, goal stop. Did you mean goal?
> goal win.|
"win." is not expected here; expected: goal win, goal holes N or, in a problem 2, goal stop.
Write no other sign at the word win.
>
the input ends here; expected: goal win, goal holes N or, in a problem 2, goal stop
> goal 121|
"121" is not expected here; expected: goal win, goal holes N or, in a problem 2, goal stop.
Write goal win to be at hole 121 first.
> goal 5|
"5" is not expected here; expected: goal win, goal holes N or, in a problem 2, goal stop. Write goal holes 5.
> goal|
the end of the line is not expected here; expected: goal win, goal holes N or, in a problem 2, goal stop
> goal holes|
"holes" is not expected here; expected: goal win, goal holes N or, in a problem 2, goal stop.
Write goal holes and the number of holes.
> goal holes 0|
"0" is out of range; expected: 1 to 61, what is left from 60 to hole 121
> goal holes 62|
"62" is out of range; expected: 1 to 61, what is left from 60 to hole 121
> goal stop|
"stop" is not expected here; expected: goal win, goal holes N or, in a problem 2, goal stop.
The goal stop needs problem 2 on line 1, and a line played 0 behind the goal.
> goal 0|
"0" is not expected here; expected: goal win, goal holes N or, in a problem 2, goal stop.
Write goal holes and the number of holes.
> goal +12|
"+12" is not expected here; expected: goal win, goal holes N or, in a problem 2, goal stop. Write goal holes 12.
> goal win or stop|
"or" is not expected here; expected: goal win, goal holes N or, in a problem 2, goal stop.
A problem has one goal: end the line.
> goal points 5|
"points" is not expected here; expected: goal win, goal holes N or, in a problem 2, goal stop. Write goal holes 5.
> win|
"win" is not expected here; expected: goal win, goal holes N or, in a problem 2, goal stop.
Begin this line with the word goal.
> goal winning|
"winning" is not expected here; expected: goal win, goal holes N or, in a problem 2, goal stop. Did you mean
win?
> goal win game|
"game" is not expected here; expected: goal win, goal holes N or, in a problem 2, goal stop. Leave this out.
> goal win|none|
"none" is after the last section; expected: the end of the input. Leave this line out.
# problem 1|dealer owner|score 60 0|starter KD|hold 2C 3C 4C 5C|throw 6C 6D|goal win|
> played 0|
"played" is after the last section; expected: the end of the input.
Turns that were played already need problem 2 on line 1.
> |
an empty line is after the last section; expected: the end of the input. Remove it.
> plan 1|nodes 0|
"plan" is after the last section; expected: the end of the input. This command reads a problem and nothing else.
> own 2C|
"own" is after the last section; expected: the end of the input.
Turns that were played already need problem 2 on line 1.
> problem 1|
"problem" is after the last section; expected: the end of the input. An input has one problem.
# problem 2|dealer owner|score 60 0|starter KD|hold 2C 3C 4C 5C|throw 6C 6D|goal win|
>
the input ends here; expected: played and the number of turns that follow.
In a problem 2 the line played follows the goal; at the first lead it is played 0.
> played 2|opp 7C|
the input ends here; expected: own or opp, and then a card or go.
Line 8 says played 2, but the number of lines for it is 1.
> played 1|opp 7C|own 2C|
"own" is after the last section; expected: the end of the input.
Line 8 says played 1, but the number of lines for it is 2.
> played 1 own 2C|
"own" is not expected here; expected: played and the number of turns that follow. Write each act on a line of its own.
> played|
the end of the line is not expected here; expected: played and the number of turns that follow. Write played 0.
> opp 7C|own 2C|
"opp" is not expected here; expected: played and the number of turns that follow. The line played 2 is
missing.
> played 1|opponent 7C|
"opponent" is not expected here; expected: own or opp, and then a card or go. Did you mean opp?
> played 1|* opp 7C|
"*" is not expected here; expected: own or opp, and then a card or go. Leave this out.
> played none|opp 7C|
"none" is not a valid number here; expected: a number from 0 to 32. Write played 1.
> played opp 7C|
"opp" is not expected here; expected: played and the number of turns that follow. Write each act on a line of its own.
#
> problem 2|dealer owner|score 0 0|starter KD|hold 2C 3C 4C 5C|throw 6C 6D|played 0|goal win|
"played" is not expected here; expected: goal win, goal holes N or, in a problem 2, goal stop.
The order is problem, dealer, score, starter, hold, throw, goal and, in a problem 2, played.
> problem 2|dealer owner|score 0 0|starter KD|hold 2C 3C 4C 5C|throw 6C 6D|played 0|
"played" is not expected here; expected: goal win, goal holes N or, in a problem 2, goal stop.
The line goal is missing.
# problem 2|dealer owner|score 0 0|starter KD|hold 2C 3C 4C 5C|throw 6C 6D|
> goal stop 5|
"5" is not expected here; expected: goal win, goal holes N or, in a problem 2, goal stop.
Only goal holes has a number behind it.
> goal win 12|
"12" is not expected here; expected: goal win, goal holes N or, in a problem 2, goal stop.
Only goal holes has a number behind it.
> goal Stop|
"Stop" is not expected here; expected: goal win, goal holes N or, in a problem 2, goal stop.
Write small letters: stop.
"#;

#[test]
fn explains_hands_and_goals(rt: HostRuntime) {
    are_explained(&rt, Sections::Problem, LINES);
}

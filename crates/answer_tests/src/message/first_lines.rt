//! Slips in the lines of a problem up to its starter.
use super::messages::are_explained;
use crib_input::Sections;

const LINES: &str = r##"
> problem one|
"one" is not a valid number here; expected: problem 1 or problem 2. Write a number in digits alone.
> problem 1;dealer owner|
"1;dealer" is not expected here; expected: problem 1 or problem 2. End the line behind the number.
> problem 1.0|
"1.0" is not a valid number here; expected: problem 1 or problem 2. Write a number in digits alone.
> Problem: 1|
"Problem:" is not expected here; expected: problem 1 or problem 2. Write no other sign at the word problem.
> problem 1 # x|
"#" is not expected here; expected: problem 1 or problem 2. Comments are not allowed.
> dealer owner|
"dealer" is not expected here; expected: problem 1 or problem 2. The order is problem, dealer, score, starter, hold,
throw, goal and, in a problem 2, played.
> {"problem":1}|
"{"problem":1}" is not expected here; expected: problem 1 or problem 2. JSON is not read: write the expected
line.
> problems 1|
"problems" is not expected here; expected: problem 1 or problem 2. Did you mean problem?
> problem 1|dealer the owner|
"the" is not expected here; expected: dealer owner or dealer opponent. Leave this out.
> problem 1|dealer=owner|
"dealer=owner" is not expected here; expected: dealer owner or dealer opponent. Write a blank behind the word dealer.
> problem 1|dealer 0wner|
"0wner" is not expected here; expected: dealer owner or dealer opponent. Did you mean owner?
> problem 1|dealer oponent|
"oponent" is not expected here; expected: dealer owner or dealer opponent. Did you mean opponent?
> problem 1|dealer pone|
"pone" is not expected here; expected: dealer owner or dealer opponent.
The plan is the owner's, and the other player is the opponent.
>
the input ends here; expected: problem 1 or problem 2. The input is empty.
> problem 1
the last line is cut short; expected: LF at its end. Every line ends with LF, the last one too: press Enter behind it.
> problem 1|
the input ends here; expected: dealer owner or dealer opponent
> problem 1||dealer owner|
an empty line is not expected here; expected: dealer owner or dealer opponent. Remove it.
> # a problem|
"#" is not expected here; expected: problem 1 or problem 2. Comments are not allowed.
> problem  1|
a second blank is not expected here. Write one blank between two words, and none at the ends of a line.
> problem 1 |
a blank at the end of a line is not expected here. Write one blank between two words, and none at the ends of a line.
> PROBLEM 1|
"PROBLEM" is not expected here; expected: problem 1 or problem 2. Write small letters: problem.
> problem 3|
"3" is not a version of this section; expected: problem 1 or problem 2
> problem 1|dealer me|
"me" is not expected here; expected: dealer owner or dealer opponent.
The plan is the owner's, and the other player is the opponent.
> problem 1|dealer Owner|
"Owner" is not expected here; expected: dealer owner or dealer opponent. Write small letters: owner.
> plan 1|nodes 0|
"plan" is not expected here; expected: problem 1 or problem 2. The problem comes first.
> problem 1 dealer owner score 0 0|
"dealer" is not expected here; expected: problem 1 or problem 2. Begin a new line at the word dealer.
> problem 1|dealer Bob|
"Bob" is not expected here; expected: dealer owner or dealer opponent.
The plan is the owner's, and the other player is the opponent.
> My hands|problem 1|dealer owner|
"My" is not expected here; expected: problem 1 or problem 2. Remove this line: what is expected is below.
> ```|problem 2|
"```" is not expected here; expected: problem 1 or problem 2. Remove this line: what is expected is below.
> dealer,own,opp,starter|
"dealer,own,opp,starter" is not expected here; expected: problem 1 or problem 2. The command cribplan-many --rows
reads tables.
> problem 1|pone owner|
"pone" is not expected here; expected: dealer owner or dealer opponent. This line says who deals.
> dealer;own;opp;starter|
"dealer;own;opp;starter" is not expected here; expected: problem 1 or problem 2.
The command cribplan-many --rows reads tables.
> You are the pone at 1, and the dealer is at 2.|
"You" is not expected here; expected: problem 1 or problem 2.
This is a printed sheet: cribplan-tidy reads it in place of a plan.
> problem 1|dealer opp|
"opp" is not expected here; expected: dealer owner or dealer opponent. Did you mean opponent?
> problem 1|dealer Anna (me)|
"Anna" is not expected here; expected: dealer owner or dealer opponent.
The plan is the owner's, and the other player is the opponent.
> problem 1|opponent deals|
"opponent" is not expected here; expected: dealer owner or dealer opponent. This line says who deals.
> Problem of the day|problem 1|
"Problem" is not expected here; expected: problem 1 or problem 2. Remove this line: what is expected is below.
> problem 1|dealer is owner|
"is" is not expected here; expected: dealer owner or dealer opponent. Leave this out.
# problem 1|dealer owner|
> scores 0 0|
"scores" is not expected here; expected: score and two numbers from 0 to 120, the owner's and the opponent's.
Did you mean score?
> score 0 zero|
"zero" is not a valid number here; expected: a number from 0 to 120. Write a number in digits alone.
> score own 109 opp 110|
"own" is not expected here; expected: score and two numbers from 0 to 120, the owner's and the opponent's.
Leave the names out.
> score 109:110|
"109:110" is not expected here; expected: score and two numbers from 0 to 120, the owner's and the opponent's.
Write whole numbers, with a blank between two.
> score 109 - 110|
"-" is not expected here; expected: score and two numbers from 0 to 120, the owner's and the opponent's.
Leave this out.
> score -5 0|
"-5" is not a valid number here; expected: a number from 0 to 120. Write a number without a sign.
> score 109-110|
"109-110" is not expected here; expected: score and two numbers from 0 to 120, the owner's and the opponent's.
Write whole numbers, with a blank between two.
> score 121 0|
"121" is above 120; expected: a number from 0 to 120. The game is over at 121.
> score 0 130|
"130" is above 120; expected: a number from 0 to 120
> score 060 0|
"060" is not a valid number here; expected: a number from 0 to 120. Write a number without a zero in front.
> score +6 0|
"+6" is not a valid number here; expected: a number from 0 to 120. Write a number without a sign.
> score 6O 0|
"6O" is not a valid number here; expected: a number from 0 to 120. Write 0 and 1 as digits, not as letters.
> score 99999999999 0|
"99999999999" is not a valid number here; expected: a number from 0 to 120. The greatest number is 4294967295.
> score 60|
the end of the line is not expected here; expected: score and two numbers from 0 to 120, the owner's and the opponent's
> score 60 0 0|
"0" is not expected here; expected: score and two numbers from 0 to 120, the owner's and the opponent's
> score 60, 0|
"60," is not a valid number here; expected: a number from 0 to 120. Write no other sign at a number.
> score 1O9 110|
"1O9" is not a valid number here; expected: a number from 0 to 120. Write 0 and 1 as digits, not as letters.
> score 109 1I0|
"1I0" is not a valid number here; expected: a number from 0 to 120. Write 0 and 1 as digits, not as letters.
> score 109.5 110|
"109.5" is not a valid number here; expected: a number from 0 to 120. Write a number in digits alone.
> score 109.5|
"109.5" is not expected here; expected: score and two numbers from 0 to 120, the owner's and the opponent's.
Write whole numbers, with a blank between two.
> score 1o9|
"1o9" is not expected here; expected: score and two numbers from 0 to 120, the owner's and the opponent's.
Write 0 and 1 as digits, not as letters.
> pegs 0 0|
"pegs" is not expected here; expected: score and two numbers from 0 to 120, the owner's and the opponent's.
Write score in place of "pegs".
> score me 0 you 0|
"me" is not expected here; expected: score and two numbers from 0 to 120, the owner's and the opponent's.
Leave this out.
> score 0 0|cut KD|
"cut" is not expected here; expected: starter and a card. Write starter in place of "cut".
> score 0 0|starter BD|
"BD" is not a card. Write a jack, a queen and a king as J, Q and K: JD.
# problem 1|dealer owner|score 0 0|
> starter King of Diamonds|
"King" is not expected here; expected: starter and a card. Write a card as two letters, its rank and its suit: TS.
> starter ??|
"??" is not a card. No card may be left open.
> starter K-D|
"K-D" is not a card. Write no other sign at a card: KD.
> starter 13D|
"13D" is not a card. Write a jack, a queen and a king as J, Q and K: KD.
> starter 1S|
"1S" is not a card. Write an ace as A: AS.
> starter 10|
"10" is not a card. Write ten as T: TS.
> starter S|
"S" is not a card. Write the rank in front of the suit, as in TS.
> upcard KD|
"upcard" is not expected here; expected: starter and a card. Write starter in place of "upcard".
> starter 10D|
"10D" is not a card. Write ten as T: TD.
> starter kd|
"kd" is not a card. Write a card in capital letters: KD.
> starter DK|
"DK" is not a card. Write the rank in front of the suit: KD.
> starter K|
"K" is not a card. Write the suit behind the rank, as in KS.
> starter K D|
"K" is not expected here; expected: starter and a card. Write the rank and the suit of a card together.
> starter|
the end of the line is not expected here; expected: starter and a card. The number of cards here is 0.
> hold 2C 3C 4C 5C|
"hold" is not expected here; expected: starter and a card. The line starter is missing.
> hold 2C 3C 4C 5C|starter KD|
"hold" is not expected here; expected: starter and a card.
The order is problem, dealer, score, starter, hold, throw, goal and, in a problem 2, played.
> starter = KD|
"=" is not expected here; expected: starter and a card. Leave this out.
"##;

// Slips that are bytes which no line has.
const BYTES: &str = "
> problem 1\r|dealer owner\r|
a line end of Windows or old Macs (CR) is neither LF nor 32 to 126.
A line ends with LF alone: save the file with Unix line ends.
> problem\t1|
a tab is neither LF nor 32 to 126. Write a blank in place of the tab.
> \u{feff}problem 1|
\"\\xef\\xbb\\xbf\" is neither LF nor 32 to 126. Save the file as plain ASCII, without a byte-order mark.
> problem\u{a0}1|
\"\\xc2\\xa0\" is neither LF nor 32 to 126. Write a plain blank in place of the special one.
> p\0r\0o\0b\0
\"\\x00\" is neither LF nor 32 to 126. Save the file as plain ASCII, not as UTF-16.
> problem \u{1f0a1}|
\"\\xf0\\x9f\\x82\\xa1\" is neither LF nor 32 to 126. Write a card as two letters, its rank and its suit: TS.
> \u{1b}[31mproblem 1|
\"\\x1b\" is neither LF nor 32 to 126. Remove the colour codes of a terminal.
> problem 1\u{1}\u{2}\u{3}|
\"\\x01\" is neither LF nor 32 to 126. The input is no text.
> probl\u{e9}m 1|
\"\\xc3\\xa9\" is neither LF nor 32 to 126. Write plain ASCII letters, digits and signs.
> problem 1\rdealer owner\r
a line end of Windows or old Macs (CR) is neither LF nor 32 to 126.
A line ends with LF alone: save the file with Unix line ends.
> problem 1|dealer\u{b}owner|
\"\\x0b\" is neither LF nor 32 to 126. Remove this control character.
# problem 1|dealer owner|score 0 0|
> starter K\u{2666}|
\"\\xe2\\x99\\xa6\" is neither LF nor 32 to 126. Write the suit sign of diamonds as the letter D.
> starter KD\u{fe0f}|
\"\\xef\\xb8\\x8f\" is neither LF nor 32 to 126. Remove the invisible sign here.
> starter K\u{200b}D|
\"\\xe2\\x80\\x8b\" is neither LF nor 32 to 126. Remove the invisible sign here.
> starter \u{201c}KD\u{201d}|
\"\\xe2\\x80\\x9c\" is neither LF nor 32 to 126. Remove the quotation mark.
";

#[test]
fn explains_first_lines(rt: HostRuntime) {
    are_explained(&rt, Sections::Problem, LINES);
    are_explained(&rt, Sections::Problem, BYTES);
}

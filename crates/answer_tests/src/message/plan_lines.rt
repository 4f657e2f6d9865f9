//! Slips in the lines of a plan.
use super::messages::are_explained;
use crib_input::Sections;

const LINES: &str = r##"
# problem 1|dealer owner|score 60 0|starter KD|hold 2C 3C 4C 5C|throw 6C 6D|goal win|
> plan 1|0 play 2C end|
"0" is not expected here; expected: nodes and the number of nodes that follow. The line nodes 1 is missing.
> Plan 1|
"Plan" is not expected here; expected: plan 1. Write small letters: plan.
> plan|
the end of the line is not expected here; expected: plan 1
> nodes 1|0 play 2C end|
"nodes" is not expected here; expected: plan 1. A plan begins with the lines plan 1 and nodes N.
> none|
"none" is not expected here; expected: plan 1. Where no plan is sure, solve writes none, and there is no plan to read.
> |plan 1|
an empty line is not expected here; expected: plan 1. Remove it.
> plan 1|nodes one|
"one" is not a valid number here; expected: nodes and the number of nodes that follow. Write nodes 0.
> plan v1|
"v1" is not a valid number here; expected: plan 1. Write a number in digits alone.
>
the input ends here; expected: plan 1. This command reads a problem and then a plan.
> game 1|acts 0|
"game" is not expected here; expected: plan 1. This command reads a problem and then a plan.
> plan 2|
"2" is not a version of this section; expected: plan 1
> plan 1|nodes 1|play 2C end|
"play" is not expected here; expected: a node, such as 0 play 2C end or 0 see A2:1.
A node begins with its number: 0 play 2C end.
> plan 1|nodes 3|0 play 2C 1|1 play 3C end|game 1|
"game" is not expected here; expected: a node, such as 0 play 2C end or 0 see A2:1.
Line 9 says nodes 3, but the number of lines for it is 2.
> plan 1|nodes 1|see A:1|
"see" is not expected here; expected: a node, such as 0 play 2C end or 0 see A2:1.
A node begins with its number: 0 play 2C end.
> plan 1|nodes 1|node 0 play 2C end|
"node" is not expected here; expected: a node, such as 0 play 2C end or 0 see A2:1.
A node begins with its number: 0 play 2C end.
> plan 1|nodes 1|0 play the 2C end|
"the" is not expected here; expected: a card, and then a later node or end. Leave this out.
> Plan:|plan 1|nodes 0|
"Plan:" is not expected here; expected: plan 1. Remove this line: what is expected is below.
> plan 1|nodes|0 play 2C end|
the end of the line is not expected here; expected: nodes and the number of nodes that follow. Write nodes 1.
> plan 1|nodes 0|holds|
"holds" is after the last section; expected: the end of the input. Leave this line out.
+ plan 1|nodes 2|
> 1 play 2C end|
"1" is not expected here; expected: 0, the number of this node. The first node has the number 0.
> 0 see A23|
"A23" is not expected here; expected: letters, one colon and a later node, such as A23:1
> 0 see A:1,2:1|
"A:1,2:1" is not expected here; expected: letters, one colon and a later node, such as A23:1.
Write a blank between two branches, and no other sign.
> 0 see A: 1|
"A:" is not a valid number here; expected: the number of a later node behind the colon.
Write no blank at the colon of a branch.
> 0 look A:1|
"look" is not expected here; expected: a node, such as 0 play 2C end or 0 see A2:1. Write see in place of
"look".
> 0 play 2C node 1|
"node" is not expected here; expected: the number of a later node, or end. Leave this out.
> 0 play 2C 3C 1|
"3C" is not expected here; expected: the number of a later node, or end. Leave this out.
> node 0 play 2C 1|
"node" is not expected here; expected: a node, such as 0 play 2C end or 0 see A2:1.
A node begins with its number: 0 play 2C end.
> 0 lead 2C 1|
"lead" is not expected here; expected: a node, such as 0 play 2C end or 0 see A2:1. Write play in place of
"lead".
> 0 2C 1|
"2C" is not expected here; expected: a node, such as 0 play 2C end or 0 see A2:1. Write play in front of a card.
> 0 play 2C|
the end of the line is not expected here; expected: the number of a later node, or end
> 0 play 1|
"1" is not expected here; expected: a card, and then a later node or end.
Write the card in front of the node to go on at: 0 play 2C 1.
> 0 play|
the end of the line is not expected here; expected: a card, and then a later node or end
> 0 play 2C -> 1|
"->" is not expected here; expected: the number of a later node, or end. Leave this out.
> 0 play 2C 1 # ok|
"#" is not expected here; expected: the end of the line, behind a card and one node. Comments are not allowed.
> 0|
the end of the line is not expected here; expected: a node, such as 0 play 2C end or 0 see A2:1
> 0 play 2C 1|0 play 3C end|
"0" is not expected here; expected: 1, the number of this node
> 0 PLAY 2C 1|
"PLAY" is not expected here; expected: a node, such as 0 play 2C end or 0 see A2:1. Write small letters: play.
> 0: play 2C 1|
"0:" is not a valid number here; expected: 0, the number of this node. Write no other sign at a number.
> 0 see A:x|
"x" is not a valid number here; expected: the number of a later node behind the colon.
Write a number in digits alone.
> 0 play 10C 1|
"10C" is not a card. Write ten as T: TC.
> 0 play go 1|
"go" is not a card. A plan states no go of the owner: leave this node out.
> own 2C|
"own" is not expected here; expected: a node, such as 0 play 2C end or 0 see A2:1.
A plan has nodes, and a game has acts: 0 play 2C end.
> 0 play 2C 1|
the input ends here; expected: a node, such as 0 play 2C end or 0 see A2:1.
Line 9 says nodes 2, but the number of lines for it is 1.
> 0 play 2C,1|
"2C,1" is not expected here; expected: a card, and then a later node or end
> 0 see A :1|
"A" is not expected here; expected: letters, one colon and a later node, such as A23:1.
Write no blank at the colon of a branch.
> 0 see A:|
"A:" is not a valid number here; expected: the number of a later node behind the colon
> 0 see A:End|
"End" is not a valid number here; expected: the number of a later node behind the colon.
Leave this branch out: a letter in no branch leads to the end.
> 0 play 8S stop|
"stop" is not a valid number here; expected: the number of a later node, or end. Write end, or the number of a node.
> 0 play 8D next|
"next" is not a valid number here; expected: the number of a later node, or end. Write end, or the number of a node.
> 0 play 3 8H|
"3" is not a card. Write the card in front of the node to go on at: 0 play 2C 1.
> 0 play 3 10H|
"3" is not a card. Write the card in front of the node to go on at: 0 play 2C 1.
> 0 play end 8h|
"end" is not a card. Write the card in front of the node to go on at: 0 play 2C 1.
> 0 play 10 end|
"10" is not a card. Write the suit behind the rank, as in TS.
> 0 play 8 S end|
"8" is not expected here; expected: a card, and then a later node or end.
Write the rank and the suit of a card together.
> 0 see A:next|
"next" is not a valid number here; expected: the number of a later node behind the colon.
Write the number of a node, not a name.
> 0 see 7:A|
"A" is not a valid number here; expected: the number of a later node behind the colon.
Write the letters in front of the colon, and the node behind it.
> 0 see 1:A|
"1:A" is not a valid branch: "1" is none of the letters A23456789TJQKg;
write the letters in front of the colon, and the node behind it
> 0 see 10:2|
"10:2" is not a valid branch: "1" is none of the letters A23456789TJQKg; a ten is T, and an ace A
> 0 see other:1 23:1|
"other:1" is not a valid branch: "o" is none of the letters A23456789TJQKg; write each rank by its letter, and
no word
> 0 see GO:1|
"GO:1" is not a valid branch: "G" is none of the letters A23456789TJQKg; a go is a small g alone
> 0 see 5c:1|
"5c:1" is not a valid branch: "c" is none of the letters A23456789TJQKg; a branch has ranks and no suits
> 0 see king:1|
"king:1" is not a valid branch: "k" is none of the letters A23456789TJQKg; write each rank by its letter, and
no word
# problem 2|dealer owner|score 60 0|starter KD|hold 2C 3C 4C 5C|throw 6C 6D|goal win|
> plan 1|nodes 0|
"plan" is not expected here; expected: played and the number of turns that follow.
In a problem 2 the line played follows the goal; at the first lead it is played 0.
#
> none|
"none" is not expected here; expected: problem 1 or problem 2.
Where no plan is sure, solve writes none, and there is no plan to read.
"##;

#[test]
fn explains_plans(rt: HostRuntime) {
    are_explained(&rt, Sections::Question, LINES);
}

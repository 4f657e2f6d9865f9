//! Messages of refused plans.
use super::messages::are_said;
use crib_input::Sections;

const PLANS: &str = r#"
# problem 1|dealer opponent|score 0 0|starter 3H|hold TC 9C 2C 8C|throw 4S 6S|goal win|
> plan 1|nodes 1|0 play TC 0|
cribplan: line 10, line 3 of the plan: "0" is not a later node of the plan:
this is the line of node 0, and a target has a greater number
  10 | 0 play TC 0
     |           ^
> plan 1|nodes 2|0 play TC 1|1 play 9C 0|
cribplan: line 11, line 4 of the plan: "0" is not a later node of the plan:
this is the line of node 1, and a target has a greater number
  11 | 1 play 9C 0
     |           ^
> plan 1|nodes 1|0 play TC 7|
cribplan: line 10, line 3 of the plan: "7" is not a later node of the plan: node 7 isn't there: the nodes are
numbered 0 to 0
  10 | 0 play TC 7
     |           ^
> plan 1|nodes 2|0 play TC 7|1 play 9C end|
cribplan: line 10, line 3 of the plan: "7" is not a later node of the plan: node 7 isn't there: the nodes are
numbered 0 to 1
  10 | 0 play TC 7
     |           ^
> plan 1|nodes 2|0 see A:end|1 play TC end|
cribplan: line 10, line 3 of the plan: "end" is not a later node of the plan: a see line names no end;
leave this branch out, since a letter in no branch leads to the end
  10 | 0 see A:end
     |         ^^^
> plan 1|nodes 2|0 see A:9|1 play TC end|
cribplan: line 10, line 3 of the plan: "9" is not a later node of the plan: node 9 isn't there: the nodes are
numbered 0 to 1
  10 | 0 see A:9
     |         ^
> plan 1|nodes 2|0 see :1|1 play TC end|
cribplan: line 10, line 3 of the plan: ":1" is not a valid branch: no letter stands before its colon
  10 | 0 see :1
     |       ^^
> plan 1|nodes 2|0 see 5A:1|1 play TC end|
cribplan: line 10, line 3 of the plan: "5A:1" is not a valid branch:
A comes before 5 in the order A23456789TJQKg
  10 | 0 see 5A:1
     |       ^^^^
> plan 1|nodes 2|0 see AA:1|1 play TC end|
cribplan: line 10, line 3 of the plan: "AA:1" is not a valid branch: A stands in it twice
  10 | 0 see AA:1
     |       ^^^^
> plan 1|nodes 2|0 see a:1|1 play TC end|
cribplan: line 10, line 3 of the plan: "a:1" is not a valid branch:
"a" is none of the letters A23456789TJQKg; a rank is a capital
  10 | 0 see a:1
     |       ^^^
> plan 1|nodes 2|0 see 10:1|1 play TC end|
cribplan: line 10, line 3 of the plan: "10:1" is not a valid branch:
"1" is none of the letters A23456789TJQKg; a ten is T, and an ace A
  10 | 0 see 10:1
     |       ^^^^
> plan 1|nodes 2|0 see 5C:1|1 play TC end|
cribplan: line 10, line 3 of the plan: "5C:1" is not a valid branch:
"C" is none of the letters A23456789TJQKg; a branch has ranks and no suits
  10 | 0 see 5C:1
     |       ^^^^
> plan 1|nodes 2|0 see G:1|1 play TC end|
cribplan: line 10, line 3 of the plan: "G:1" is not a valid branch:
"G" is none of the letters A23456789TJQKg; a go is a small g alone
  10 | 0 see G:1
     |       ^^^
> plan 1|nodes 3|0 see A:1 A:2|1 play TC end|2 play 9C end|
cribplan: line 10, line 3 of the plan: "A:2" is not a valid branch: A stood in the branch "A:1" already
  10 | 0 see A:1 A:2
     |           ^^^
> plan 1|nodes 3|0 see 2:1 A:2|1 play TC end|2 play 9C end|
cribplan: line 10, line 3 of the plan: "A:2" is not a valid branch:
it belongs before "2:1": branches are sorted by their first letters
  10 | 0 see 2:1 A:2
     |           ^^^
> plan 1|nodes 2|0 see A:1 23:1|1 play TC end|
cribplan: line 10, line 3 of the plan: "23:1" is not a valid branch: "A:1" leads to the same node; write both as one
branch
  10 | 0 see A:1 23:1
     |           ^^^^
> plan 1|nodes 65536|
cribplan: line 9, line 2 of the plan: "65536" is above 65,535; expected: the number of nodes, 0 to 65535
  9 | nodes 65536
    |       ^^^^^
> plan 1|nodes 1|1 play TC end|
cribplan: line 10, line 3 of the plan: "1" is not expected here; expected: 0, the number of this node.
The first node has the number 0.
  10 | 1 play TC end
     | ^
> plan 1|nodes 1|0 plays TC end|
cribplan: line 10, line 3 of the plan: "plays" is not expected here;
expected: a node, such as 0 play 2C end or 0 see A2:1. Did you mean play?
  10 | 0 plays TC end
     |   ^^^^^
> plan 1|nodes 1|0 play TC|
cribplan: line 10, line 3 of the plan: the end of the line is not expected here;
expected: the number of a later node, or end
  10 | 0 play TC
     |          ^
> plan 1|nodes 1|0 play|
cribplan: line 10, line 3 of the plan: the end of the line is not expected here;
expected: a card, and then a later node or end
  10 | 0 play
     |       ^
> plan 1|nodes 1|0|
cribplan: line 10, line 3 of the plan: the end of the line is not expected here;
expected: a node, such as 0 play 2C end or 0 see A2:1
  10 | 0
     |  ^
> plan 1|nodes 1|0 play TC 1 2|
cribplan: line 10, line 3 of the plan: "2" is not expected here; expected: the end of the line, behind a card
and one node
  10 | 0 play TC 1 2
     |             ^
> plan 1|nodes 1|x play TC end|
cribplan: line 10, line 3 of the plan: "x" is not a valid number here; expected: 0, the number of this node.
Write a number in digits alone.
  10 | x play TC end
     | ^
> plan 1|nodes 1|0 play TC x|
cribplan: line 10, line 3 of the plan: "x" is not a valid number here;
expected: the number of a later node, or end. Write a number in digits alone.
  10 | 0 play TC x
     |           ^
> plan 1|nodes 2|0 see A1|1 play TC end|
cribplan: line 10, line 3 of the plan: "A1" is not expected here;
expected: letters, one colon and a later node, such as A23:1
  10 | 0 see A1
     |       ^^
> plan 1|nodes 2|0 see A:1:1|1 play TC end|
cribplan: line 10, line 3 of the plan: "A:1:1" is not expected here;
expected: letters, one colon and a later node, such as A23:1. Write a blank between two branches, and no other sign.
  10 | 0 see A:1:1
     |       ^^^^^
> plan 1|nodes 2|0 see A:x|1 play TC end|
cribplan: line 10, line 3 of the plan: "x" is not a valid number here;
expected: the number of a later node behind the colon. Write a number in digits alone.
  10 | 0 see A:x
     |         ^
> plan 1|nodes 1|1 see A:2|
cribplan: line 10, line 3 of the plan: "1" is not expected here; expected: 0, the number of this node.
The first node has the number 0.
  10 | 1 see A:2
     | ^
> plan 1|nodes 1|0 play TC -1|
cribplan: line 10, line 3 of the plan: "-1" is not a valid number here;
expected: the number of a later node, or end. Write a number without a sign.
  10 | 0 play TC -1
     |           ^^
> plan 1|nodes 1|0 play TC 1|1 play 9C end|
cribplan: line 10, line 3 of the plan: "1" is not a later node of the plan: node 1 isn't there: the nodes are
numbered 0 to 0. Line 9 says nodes 1, but the number of lines for it is 2.
  10 | 0 play TC 1
     |           ^
> plan 1|nodes 2|0 see go:1|1 play TC end|
cribplan: line 10, line 3 of the plan: "go:1" is not a valid branch:
"o" is none of the letters A23456789TJQKg; a go is a small g alone
  10 | 0 see go:1
     |       ^^^^
> plan 1|nodes 2|0 see A-5:1|1 play TC end|
cribplan: line 10, line 3 of the plan: "A-5:1" is not a valid branch:
"-" is none of the letters A23456789TJQKg; write each letter, with no sign between two, as in A23:1
  10 | 0 see A-5:1
     |       ^^^^^
> plan 1|nodes 2|0 see else:1|1 play TC end|
cribplan: line 10, line 3 of the plan: "else:1" is not a valid branch: "e" is none of the letters
A23456789TJQKg; write each rank by its letter, and no word
  10 | 0 see else:1
     |       ^^^^^^
"#;

#[test]
fn says_why_plans_are_refused(rt: HostRuntime) {
    are_said(&rt, Sections::Question, PLANS);
}

//! Messages of refused turns of an opening.
use super::messages::are_said;
use crib_input::Sections;

const OPENINGS: &str = r#"
# problem 2|dealer opponent|score 0 0|starter 3H|hold TC 9C 2C 8C|throw 4S 6S|goal win|
> played 2|own TC|opp go|
cribplan: line 10: go is a turn that no deal lets the opponent show: the count is 10, so every card fits;
a go is said at a count of 22 or more
  10 | opp go
     |     ^^
> played 6|own TC|opp TD|own 9C|opp go|opp go|own 2C|
cribplan: line 13: the opponent is not the side to move: the opponent said go already (line 12),
and each side says go once a count; it is the owner's turn, and the count is 29; leave this line out
  13 | opp go
     | ^^^
> played 7|own TC|opp TD|own 8C|opp go|own 2C|own 9C|opp 2D|
cribplan: line 14: a card that does not fit: 9C counts 9, the count is 30, and 1 is left to 31;
the owner holds no card that fits, so "own go" is missing before this line
  14 | own 9C
     |     ^^
> played 9|own TC|opp 8D|own 9C|opp go|own 2C|own go|opp 4D|own 8C|opp KD|
cribplan: line 15: 4D is a turn that no deal lets the opponent show:
the opponent said go at a count of 27 (line 12), so each of their cards counts 5 or more
  15 | opp 4D
     |     ^^
> played 8|own TC|opp 8D|own 9C|opp go|own 2C|own go|own 8C|opp KD|
cribplan: line 15: the owner is not the side to move: neither side could play after line 14, so the count begins again;
it is the opponent's turn, and the count is 0; a card of theirs is missing before this line
  15 | own 8C
     | ^^^
> played 8|own TC|opp TD|own 8C|opp go|own 2C|own go|opp 2D|own 9C|
cribplan: line 15: 2D is a turn that no deal lets the opponent show:
the opponent said go at a count of 28 (line 12), so each of their cards counts 4 or more
  15 | opp 2D
     |     ^^
> played 2|own TC|own TC|
cribplan: line 10: the owner is not the side to move: it is the opponent's turn, and the count is 10; this
card was played (line 9)
  10 | own TC
     | ^^^
> played 1|own KC|
cribplan: line 9: KC is not held: the owner still holds 2C 8C 9C TC
  9 | own KC
    |     ^^
> played 1|own 4S|
cribplan: line 9: 4S is not held: 4S is in the owner's throw (line 6); the owner still holds 2C 8C 9C TC
  9 | own 4S
    |     ^^
> played 3|own TC|opp TD|own TC|
cribplan: line 11: TC is not held: TC was played (line 9); the owner still holds 2C 8C 9C
  11 | own TC
     |     ^^
> played 4|own TC|opp TD|own 9C|opp KD|
cribplan: line 12: a card that does not fit: KD counts 10, the count is 29, and 2 is left to 31;
"opp go" would pass the turn to the owner
  12 | opp KD
     |     ^^
> played 1|own go|
cribplan: line 9: go is not allowed while a card fits: the count is 0, so every card fits;
the owner holds 2C 8C 9C TC, which fit
  9 | own go
    |     ^^
> played 1|opp TD|
cribplan: line 9: the opponent is not the side to move: it is the owner's turn, and the count is 0;
the pone leads, and line 2 says who deals
  9 | opp TD
    | ^^^
> played 2|own TC|own 9C|
cribplan: line 10: the owner is not the side to move: it is the opponent's turn, and the count is 10;
a card of theirs is missing before this line
  10 | own 9C
     | ^^^
> played 5|own TC|opp TD|own 9C|opp go|opp KD|
cribplan: line 13: the opponent is not the side to move: it is the owner's turn, and the count is 29;
the owner holds 2C 8C, of which 2C fits
  13 | opp KD
     | ^^^
> played 4|own TC|opp TD|own 9C|own 2C|
cribplan: line 12: the owner is not the side to move: it is the opponent's turn, and the count is 29;
a card of theirs or "opp go" is missing before this line
  12 | own 2C
     | ^^^
> played 2|own TC|opp 3H|
cribplan: line 10: 3H is already used: 3H is the starter (line 4)
  10 | opp 3H
     |     ^^
> played 4|own TC|opp TD|own 9C|opp TD|
cribplan: line 12: TD is already used: TD was played (line 10)
  12 | opp TD
     |     ^^
> played 6|own TC|opp TD|own 9C|opp go|own 2C|own go|
cribplan: line 14: the owner is not the side to move: the count was 31, where nobody says go, and begins again;
it is the opponent's turn, and the count is 0
  14 | own go
     | ^^^
> played 6|own TC|opp TD|own 9C|opp go|own 2C|opp go|
cribplan: line 14: go is a turn that no deal lets the opponent show: the count was 31, where nobody says go,
and begins again; the count is 0, so every card fits; a go is said at a count of 22 or more
  14 | opp go
     |     ^^
> played 8|own TC|opp KD|own 8C|opp go|own 2C|own go|opp 5D|opp go|
cribplan: line 16: the opponent is not the side to move:
it is the owner's turn, and the count is 5; the owner holds 9C, which fits
  16 | opp go
     | ^^^
> played 1|opp TC|
cribplan: line 9: TC is already used: the owner holds TC; it is the owner's turn
  9 | opp TC
    |     ^^
# problem 2|dealer opponent|score 0 119|starter 3H|hold TC 9C 2C 8C|throw 4S 6S|goal win|
> played 2|own TC|opp TD|
cribplan: line 10: a turn that ends the deal: with TD the opponent reached hole 121; an opening stops before such a turn
  10 | opp TD
     |     ^^
"#;

#[test]
fn says_why_openings_are_refused(rt: HostRuntime) {
    are_said(&rt, Sections::Problem, OPENINGS);
}

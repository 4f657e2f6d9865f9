//! Messages of refused games.
use super::messages::are_said;
use crib_input::Sections;

const GAMES: &str = r#"
# problem 1|dealer opponent|score 0 0|starter 3H|hold TC 9C 2C 8C|throw 4S 6S|goal win|
> game 1|hold 3H KD KH QS|throw 5H 7D|acts 0|
cribplan: line 9, line 2 of the game: card 1 of the opponent is known or stood before: 3H is the starter (line 4)
  9 | hold 3H KD KH QS
    |      ^^
> game 1|hold TD KD 8C QS|throw 5H 7D|acts 0|
cribplan: line 9, line 2 of the game: card 3 of the opponent is known or stood before:
8C is in the owner's hold (line 5)
  9 | hold TD KD 8C QS
    |            ^^
> game 1|hold TD KD KH QS|throw 5H 6S|acts 0|
cribplan: line 10, line 3 of the game: card 6 of the opponent is known or stood before:
6S is in the owner's throw (line 6)
  10 | throw 5H 6S
     |          ^^
> game 1|hold TD KD KH QS|throw 5H KD|acts 0|
cribplan: line 10, line 3 of the game: card 6 of the opponent is known or stood before:
KD is in the opponent's hold (line 9)
  10 | throw 5H KD
     |          ^^
> game 1|hold TD KD KH KD|throw 5H 7D|acts 0|
cribplan: line 9, line 2 of the game: card 4 of the opponent is known or stood before: KD stands twice in this line
  9 | hold TD KD KH KD
    |               ^^
> game 1|hold TD KD KH QS|throw 5H 5H|acts 0|
cribplan: line 10, line 3 of the game: card 6 of the opponent is known or stood before: 5H stands twice in this line
  10 | throw 5H 5H
     |          ^^
> game 1|hold 5C 4D KH QS|throw 5H 7D|acts 4|own TC|opp 5C|own 9C|own go|
cribplan: line 15, line 8 of the game: act 4 is out of turn: it is the opponent's turn, and the count is 24;
the opponent holds 4D QS KH, of which 4D fits
  15 | own go
     | ^^^
+ game 1|hold TD KD KH QS|throw 5H 7D|
> acts 1|own KC|
cribplan: line 12, line 5 of the game: act 1 plays a card that is not held: the owner still holds 2C 8C 9C TC
  12 | own KC
     |     ^^
> acts 2|own TC|opp 9C|
cribplan: line 13, line 6 of the game: act 2 plays a card that is not held: the owner holds 9C;
the opponent still holds TD QS KD KH
  13 | opp 9C
     |     ^^
> acts 2|own TC|opp 5H|
cribplan: line 13, line 6 of the game: act 2 plays a card that is not held: 5H is in the opponent's throw;
the opponent still holds TD QS KD KH
  13 | opp 5H
     |     ^^
> acts 3|own TC|opp TD|own TC|
cribplan: line 14, line 7 of the game: act 3 plays a card that is not held: TC was played (line 12);
the owner still holds 2C 8C 9C
  14 | own TC
     |     ^^
> acts 1|own KD|
cribplan: line 12, line 5 of the game: act 1 plays a card that is not held: the opponent holds KD;
the owner still holds 2C 8C 9C TC
  12 | own KD
     |     ^^
> acts 4|own TC|opp KD|own 9C|opp TD|
cribplan: line 15, line 8 of the game: act 4 plays a card that does not fit: TD counts 10, the count is 29,
and 2 is left to 31; the opponent holds no card that fits, so "opp go" is missing before this line
  15 | opp TD
     |     ^^
> acts 4|own TC|opp TD|own 9C|own 2C|
cribplan: line 15, line 8 of the game: act 4 is out of turn: it is the opponent's turn, and the count is 29;
none of the opponent's cards fits (QS KD KH), so "opp go" is missing before this line
  15 | own 2C
     | ^^^
> acts 1|own go|
cribplan: line 12, line 5 of the game: act 1 is a go while a card fits: the count is 0, so every card fits;
the owner holds 2C 8C 9C TC, which fit
  12 | own go
     |     ^^
> acts 2|own TC|opp go|
cribplan: line 13, line 6 of the game: act 2 is a go while a card fits: the count is 10, so every card fits;
the opponent holds TD QS KD KH, which fit
  13 | opp go
     |     ^^
> acts 1|opp TD|
cribplan: line 12, line 5 of the game: act 1 is out of turn: it is the owner's turn, and the count is 0;
the pone leads, and line 2 says who deals
  12 | opp TD
     | ^^^
> acts 2|own TC|own 9C|
cribplan: line 13, line 6 of the game: act 2 is out of turn: it is the opponent's turn, and the count is 10;
the opponent holds TD QS KD KH, which fit
  13 | own 9C
     | ^^^
> acts 11|own TC|opp TD|own 9C|opp go|opp go|own 2C|opp KD|own 8C|opp KH|opp go|opp QS|
cribplan: line 16, line 9 of the game: act 5 is out of turn: the opponent said go already (line 15),
and each side says go once a count; it is the owner's turn, and the count is 29; leave this line out
  16 | opp go
     | ^^^
> acts 11|own TC|opp TD|own 9C|opp go|own 2C|own go|opp KD|own 8C|opp KH|opp go|opp QS|
cribplan: line 17, line 10 of the game: act 6 is out of turn: the count was 31, where nobody says go, and begins again;
it is the opponent's turn, and the count is 0; the opponent holds QS KD KH, which fit
  17 | own go
     | ^^^
> acts 11|own TC|opp TD|own 9C|opp go|own 2C|opp go|opp KD|own 8C|opp KH|opp go|opp QS|
cribplan: line 17, line 10 of the game: act 6 is a go while a card fits: the count was 31, where nobody says go,
and begins again; the count is 0, so every card fits; the opponent holds QS KD KH, which fit
  17 | opp go
     |     ^^
> acts 11|own TC|opp TD|own 9C|opp go|own 2C|opp KD|own 8C|opp KH|own go|opp go|opp QS|
cribplan: line 20, line 13 of the game: act 9 is out of turn: the owner has no card left, and such a go isn't written;
it is the opponent's turn, and the count is 28; leave this line out
  20 | own go
     | ^^^
> acts 9|own TC|opp TD|own 9C|opp go|own 2C|opp KD|own 8C|opp KH|opp QS|
cribplan: line 20, line 13 of the game: act 9 plays a card that does not fit: QS counts 10, the count is 28,
and 3 is left to 31; the opponent holds no card that fits, so "opp go" is missing before this line
  20 | opp QS
     |     ^^
> acts 11|own TC|opp TD|own 9C|opp go|own 2C|opp KD|own 8C|opp KH|opp go|opp QS|own go|
cribplan: line 22, line 15 of the game: act 11 comes after the end: all eight cards are played (line 21)
  22 | own go
     |     ^^
> acts 11|own TC|opp TD|own 9C|opp go|own 2C|opp KD|own 8C|opp KH|opp go|opp QS|opp QS|
cribplan: line 22, line 15 of the game: act 11 comes after the end: all eight cards are played (line 21)
  22 | opp QS
     |     ^^
> acts 5|own TC|opp TD|own 9C|opp go|own 8C|
cribplan: line 16, line 9 of the game: act 5 plays a card that does not fit:
8C counts 8, the count is 29, and 2 is left to 31; the owner holds 2C 8C, of which 2C fits
  16 | own 8C
     |     ^^
# problem 1|dealer opponent|score 0 119|starter 3H|hold TC 9C 2C 8C|throw 4S 6S|goal win|
+ game 1|hold TD KD KH QS|throw 5H 7D|
> acts 3|own TC|opp TD|own 9C|
cribplan: line 14, line 7 of the game: act 3 comes after the end: the opponent reached hole 121 (line 13)
  14 | own 9C
     |     ^^
# problem 2|dealer opponent|score 0 0|starter 3H|hold TC 9C 2C 8C|throw 4S 6S|goal win|
> played 1|own TC|game 1|hold TD KD KH QS|throw 5H 7D|acts 0|
cribplan: line 13, line 4 of the game: act 1 is not as it was played: a game begins with the turns of the opening,
and the next one is "own TC" (line 9)
  13 | acts 0
     | ^^^^^^
> played 1|own TC|game 1|hold TD KD KH QS|throw 5H 7D|acts 1|own 9C|
cribplan: line 14, line 5 of the game: act 1 is not as it was played: a game begins with the turns of the opening,
and the next one is "own TC" (line 9)
  14 | own 9C
     | ^^^^^^
"#;

#[test]
fn says_why_games_are_refused(rt: HostRuntime) {
    are_said(&rt, Sections::Played, GAMES);
}

// Games that stray from their plan.
const STRAYS: &str = r#"
# problem 1|dealer opponent|score 0 0|starter 3H|hold TC 9C 2C 8C|throw 4S 6S|goal win|
> plan 1|nodes 1|0 play TC end|game 1|hold TD KD KH QS|throw 5H 7D|acts 1|own 9C|
cribplan: line 15, line 5 of the game: act 1 strays from the plan:
node 0 of the plan (line 10) states TC, and the owner plays 9C
  15 | own 9C
     |     ^^
> plan 1|nodes 1|0 play TC end|game 1|hold TD KD KH QS|throw 5H 7D|acts 3|own TC|opp TD|own 9C|
cribplan: line 17, line 7 of the game: act 3 strays from the plan:
the plan is at its end there, and states no card, and the owner plays 9C
  17 | own 9C
     |     ^^
> plan 1|nodes 2|0 see A:1|1 play TC end|game 1|hold TD KD KH QS|throw 5H 7D|acts 1|own TC|
cribplan: line 16, line 5 of the game: act 1 strays from the plan:
node 0 of the plan (line 10) is a see node, and states no card, and the owner plays TC
  16 | own TC
     |     ^^
> plan 1|nodes 0|game 1|hold TD KD KH QS|throw 5H 7D|acts 1|own TC|
cribplan: line 14, line 5 of the game: act 1 strays from the plan:
the plan is at its end there, and states no card, and the owner plays TC
  14 | own TC
     |     ^^
+ plan 1|nodes 4|0 play TC 1|1 see A:2 T:3|2 play 8C end|3 play 2C end|
> game 1|hold TD KD KH QS|throw 5H 7D|acts 3|own TC|opp TD|own 9C|
cribplan: line 20, line 7 of the game: act 3 strays from the plan:
node 3 of the plan (line 13) states 2C, and the owner plays 9C
  20 | own 9C
     |     ^^
"#;

#[test]
fn says_why_strays_are_refused(rt: HostRuntime) {
    are_said(&rt, Sections::PlayedUnder, STRAYS);
}

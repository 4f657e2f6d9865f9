//! The laws of players and of games that refute them. Each function does nothing, and its contract is the law.
ghost use Rattle.crib_players.specs.Laws.{CardsLaw, FollowerLaw, NoPlanLaw, RefutedLaw, TurnLaw};
ghost use Rattle.crib_players.specs.Laws.{SureCardLaw, SureTurnLaw};

/// Games that refute leave no player sure, whatever the player looks at.
pub fn refuted_law()
    ensures { RefutedLaw }
{}

/// The player who follows a sure plan is sure.
pub fn follower_law()
    ensures { FollowerLaw }
{}

/// Games that refute leave no plan sure.
pub fn no_plan_law()
    ensures { NoPlanLaw }
{}

/// Games that refute after a turn of the opponent, or after a go, refute before it.
pub fn turn_law()
    ensures { TurnLaw }
{}

/// Games that refute after each card of the owner, together, refute before it.
pub fn cards_law()
    ensures { CardsLaw }
{}

/// If some player is sure after a card that the owner may play next, some player is sure before it.
pub fn sure_card_law()
    ensures { SureCardLaw }
{}

/// If after each act that can come next some player is sure, some player is sure before it.
pub fn sure_turn_law()
    ensures { SureTurnLaw }
{}

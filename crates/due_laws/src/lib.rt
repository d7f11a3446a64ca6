//! When a tick of an end next does something: before that moment it changes nothing and gives nothing.
#![tactic(auto)]

ghost use Rattle.due_laws.specs.Ticks.{BoundsStay, DueRecoveriesAct, DueTicksAct, DueTurnsAct, EarlyCallsStay, EarlyRecoveriesStay, EarlyStepsDoNothing, EarlyTicksDoNothing, EarlyTurnsStay, PutsMoveDue, TunnelsMayBeLeftOut, TurnsMoveDue};

/// Before the moment at which a tunnel is due, in milliseconds, its tick leaves the turn as it is: nothing of the tunnel changes, nothing is
/// given, moved or drawn; and before any of its calls is due, so does the part of the tick that looks at its calls. A tunnel that is frozen
/// or restored is due no HELLO. Before its recovery tunnel is due, the tick of that one leaves it and the turn as they are. Of the tick of an
/// end whose tunnels ascend by their ids each tunnel may be left out that isn't due, by itself or by its recovery tunnel. So before the
/// earliest of those moments the tick of the end leaves that very end, and has neither outputs nor moves.
pub fn early_ticks_do_nothing()
    ensures turns { EarlyTurnsStay }
    ensures calls { EarlyCallsStay }
    ensures recoveries { EarlyRecoveriesStay }
    ensures tunnels { TunnelsMayBeLeftOut }
    ensures ends { EarlyTicksDoNothing }
    ensures steps { EarlyStepsDoNothing }
{}

/// From that moment on the tick of the tunnel gives an output or makes a move, so does that of its recovery tunnel where the tunnel wasn't
/// removed before it, and so does the tick of the end: the moment is no earlier than it has to be. For that the calls ascend by their ids too, and each that is being set up is in a state from which its end's table has a row
/// that ends it where it is closed.
pub fn due_ticks_act()
    ensures turns { DueTurnsAct }
    ensures recoveries { DueRecoveriesAct }
    ensures ends { DueTicksAct }
{}

/// The moment of an end is the earliest of those of its tunnels, each of which stands on that tunnel and its recovery tunnel alone. So a turn
/// moves it by what it leaves of both, and a bound below it is one still where it is a bound of what the turn changed.
pub fn turns_move_due()
    ensures put { PutsMoveDue }
    ensures turn { TurnsMoveDue }
    ensures bounds { BoundsStay }
{}

//! What holds of all runs. Each law is a clause of a function that does nothing.

ghost use Rattle.std.specs.Prelude.{ℕ};
ghost use Rattle.law_frame.specs.pg_run.Golds.{FullReplicasSeeGold};
ghost use Rattle.law_frame.specs.pg_run.Laws.{HouseIsInOrder};
ghost use Rattle.law_frame.specs.pg_run.Ticks.{RestartsLoseWishes, TicksSendWhatIsOwed};
ghost use Rattle.law_ticks.specs.Given.{NamesAreOrdered, TidinessIsGiven};
ghost use Rattle.law_ticks.specs.Laws.{FirstCauseIsTold, KeysHaveCells, NoFlagIsRaised, NoRuleApplies};

/// Each key that is unacknowledged on an edge has a cell.
pub fn keys_have_cells()
    ensures { (servers : ℕ) → KeysHaveCells servers }
{}

/// A tick sends what is present of each key that its server owes and that does not wait, in their
/// order: the head of a version of more than 1,024 bytes, else the cell. Behind these it sends the
/// message of each intention that asks a server, and last the walk that its word chooses, if it
/// chooses one, and nothing else. Nobody is asked for any version any more behind it, and it
/// changes nothing else. It is refused, and changes nothing, exactly where the clock is at its
/// end.
pub fn ticks_send_what_is_owed()
    ensures { (servers : ℕ) → TidinessIsGiven servers → TicksSendWhatIsOwed servers }
{}

/// A restart loses the wishes of its server and what is noted of versions there, and changes
/// nothing else.
pub fn restarts_lose_wishes()
    ensures { (servers : ℕ) → TidinessIsGiven servers → RestartsLoseWishes servers }
{}

/// What a world is told to wait for is the first message under way; where there is none the view of
/// the least live server that has not entered the last removal; and where all have what the least
/// live server that owes something owes first.
pub fn first_cause_is_told()
    ensures { FirstCauseIsTold }
{}

/// No house rule applies after any events, and no flag is to be raised.
pub fn no_rule_applies()
    ensures rules { (servers : ℕ) → HouseIsInOrder servers → NamesAreOrdered servers
        → NoRuleApplies servers }
    ensures golds { (servers : ℕ) → HouseIsInOrder servers → NamesAreOrdered servers
        → FullReplicasSeeGold servers → NoFlagIsRaised servers }
{}

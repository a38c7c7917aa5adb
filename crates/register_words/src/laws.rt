//! Register isolation, for every plan, number of registers, tables and schedule. Each law is a contract with an empty body.
ghost use Rattle.register_words.specs.Statements.{EachIsolated, FirstRegister, RegistersConverse, RegistersIsolated, RegistersUndone, SideTotalsArePlain, SideWordsAreWorld};

/// Tables that agree register by register have one register world under their shifts, the shifts can be undone, tables with one
/// register world agree register by register, and each register of a file is isolated.
pub fn register_isolation()
    ensures isolated { RegistersIsolated }
    ensures undone { RegistersUndone }
    ensures converse { RegistersConverse }
    ensures each { EachIsolated }
{}

/// The side words of a register are the words of its own transcript, and register 0 has the mask words of the keys.
pub fn register_worlds()
    ensures world { SideWordsAreWorld }
    ensures first { FirstRegister }
{}

/// The frame total of an opened round by the side words of a register is the plain sum of the survivors' readings of it.
pub fn register_totals()
    ensures { SideTotalsArePlain }
{}

//! The grammar on worked texts: what scripts and schedules say, their faults with their lines, and their limits.

ghost use Rattle.test_grammar.specs.worked.Loops.{LoopTexts, LoopForms, LoopFaults, LoopLimits};
ghost use Rattle.test_grammar.specs.worked.Programs.{SpelledProgram, SayableProgram};
ghost use Rattle.test_grammar.specs.worked.Schedules.{TwentyRounds, OneRound, WiderRound, EachLine, EachQueue, FaultyLines, FaultyHosts, FaultyQueues, FaultyCloses, FullSchedule, ScheduleLimits};
ghost use Rattle.test_grammar.specs.worked.Scripts.{StaleCopyText, RangeForms, ClauseNames, AsyncForms, Routines, Questions, Constructs, ReadFaults, DirectiveFaults, RoutineFaults, ScriptLimits};

/// What scripts say, computed on worked texts; the limits as numbers.
pub fn worked_scripts()
    ensures stale_copy { StaleCopyText }
    ensures ranges { RangeForms }
    ensures clause_names { ClauseNames }
    ensures async_forms { AsyncForms }
    ensures routines { Routines }
    ensures questions { Questions }
    ensures constructs { Constructs }
    ensures limits { ScriptLimits }
{}

/// Each kind of fault of a script with its line, computed where it is hardest to tell.
pub fn worked_script_faults()
    ensures faults { ReadFaults }
    ensures directives { DirectiveFaults }
    ensures routines { RoutineFaults }
{}

/// What the loops of scripts say, likewise: how expressions group, each form of a loop, each fault with its line, and
/// the limit.
pub fn worked_loop_texts()
    ensures expressions { LoopTexts }
    ensures forms { LoopForms }
    ensures faults { LoopFaults }
    ensures limits { LoopLimits }
{}

/// What that spelling looks like: a small program that can be written, and its text.
pub fn worked_spelling()
    ensures text { SpelledProgram }
    ensures sayable { SayableProgram }
{}

/// What schedules say, and their limits, likewise.
pub fn worked_schedules()
    ensures twenty_rounds { TwentyRounds }
    ensures one_round { OneRound }
    ensures wider_round { WiderRound }
    ensures each_line { EachLine }
    ensures each_queue { EachQueue }
    ensures faults { FaultyLines }
    ensures host_faults { FaultyHosts }
    ensures queue_faults { FaultyQueues }
    ensures close_faults { FaultyCloses }
    ensures full { FullSchedule }
    ensures limits { ScheduleLimits }
{}

//! Laws of the definitions. Each function does nothing; its contract is the law.

ghost use Rattle.script_model.specs.Laws.{TextSaysOneLine, ScriptSaysOneThing, BadLineExcludesSaying, OneFirstBadLine, SpellingIsRead, WrittenScriptIsRead, ReadLinesAreWritable, RecordedLinesAreWritable, AskedLineIsRecorded};

/// A text says one line at most.
#[tactic(auto, using(crate::proofs::Sayings::one_line))]
pub fn text_says_one_line()
    ensures { TextSaysOneLine }
{}

/// A script says one list of lines at most.
#[tactic(auto, using(crate::proofs::Sayings::one_saying))]
pub fn script_says_one_thing()
    ensures { ScriptSaysOneThing }
{}

/// A script of which one line has no form says nothing.
#[tactic(auto, using(crate::proofs::Sayings::bad_says_nothing))]
pub fn bad_line_excludes_saying()
    ensures { BadLineExcludesSaying }
{}

/// One line at most is the first without a form.
#[tactic(auto, using(crate::proofs::Sayings::one_first_bad))]
pub fn one_first_bad_line()
    ensures { OneFirstBadLine }
{}

/// Where some text says a line, its one spelling says it too.
#[tactic(auto, using(crate::proofs::Spellings::spelling_read))]
pub fn spelling_is_read()
    ensures { SpellingIsRead }
{}

/// Lines that are written are read as the lines that they are.
#[tactic(auto, using(crate::proofs::Rereading::script_read))]
pub fn written_script_is_read()
    ensures { WrittenScriptIsRead }
{}

/// Lines that were read can be written.
#[tactic(auto, using(crate::proofs::Recorded::read_writable))]
pub fn read_lines_are_writable()
    ensures { ReadLinesAreWritable }
{}

/// The lines that say a request can be written.
#[tactic(auto, using(crate::proofs::Recorded::work_writable))]
pub fn recorded_lines_are_writable()
    ensures { RecordedLinesAreWritable }
{}

/// A request that a line of a script asks is said by that line.
#[tactic(auto, using(crate::proofs::Recorded::asked_recorded))]
pub fn asked_line_is_recorded()
    ensures { AskedLineIsRecorded }
{}

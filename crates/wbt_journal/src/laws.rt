//! Laws of journals. Each function proves what its contract says, and does nothing.

ghost use Rattle.wbt_journal.specs.Laws.{FaultsAreRight, FaultlessIsLawful, LawfulIsFaultless, LawfulTextFixesJournal, OwnPartsAreWhole, FoldsOnceAreUp};
ghost use Rattle.wbt_journal.specs.Marks.{FormsArePrinted, LawfulIsTold};
ghost use Rattle.wbt_journal.specs.Plain.{TextFixesJournal};

/// Two journals without steps whose marks follow from what their lines tell are equal where their texts are.
pub fn text_fixes_journal()
    ensures { TextFixesJournal }
{}

/// The first fault of each point of a journal is none exactly where the point holds.
pub fn faults_are_right()
    ensures { FaultsAreRight }
{}

/// A journal without a fault is lawful.
pub fn faultless_is_lawful()
    ensures { FaultlessIsLawful }
{}

/// A lawful journal has no fault where each task whose last action is a rest has its CPU alone.
pub fn lawful_is_faultless()
    ensures { LawfulIsFaultless }
{}

/// Two journals that are lawful for one trace are equal where their texts are.
pub fn lawful_text_fixes_journal()
    ensures { LawfulTextFixesJournal }
{}

/// What each CPU's part shows by itself holds of the whole journal exactly where it holds of each part.
pub fn own_parts_are_whole()
    ensures { OwnPartsAreWhole }
{}

/// Where each version of a counter's folds stands once over all CPUs, the folds stand as they may.
pub fn folds_once_are_up()
    ensures { FoldsOnceAreUp }
{}

/// A journal without steps, whose lines have their forms, is printed with numbers of at most 64 bits.
pub fn forms_are_printed()
    ensures { FormsArePrinted }
{}

/// The text of a lawful journal of a run over threads is that of a plain journal, which gives the lawful one back with its marks.
pub fn lawful_is_told()
    ensures { LawfulIsTold }
{}

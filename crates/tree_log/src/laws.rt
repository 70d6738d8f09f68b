//! Laws of the definitions. Each function has no code, and its contract is the law.
ghost use Rattle.tree_log.specs.Laws.{LogsAreShort, TextTellsLog};

/// Two different logs have different texts.
pub fn text_tells_log()
    ensures { TextTellsLog }
{}

/// The text of a log has at most 1,073,741,824 bytes, so that it can be read.
pub fn logs_are_short()
    ensures { LogsAreShort }
{}

//! Laws of the grammar of checkpoints, for the definitions that the contracts cite.
//!
//! A law is a function with an empty body: only its contract counts.
ghost use Rattle.tlog_checkpoint.specs.Laws.{TextIsOneCheckpoint, CheckpointHasOneText, WhatIsReadIsWritable, OneCheckpointAnswer, EachTextHasAnswer, EachWritableHasText};

/// A text is at most one checkpoint. So a text that `write` wrote is read as the same checkpoint.
pub fn one_reading_law()
    ensures { TextIsOneCheckpoint }
{}

/// A checkpoint has at most one text. So a checkpoint that was read is written as the same bytes.
pub fn one_text_law()
    ensures { CheckpointHasOneText }
{}

/// A checkpoint that was read can be written.
pub fn writable_law()
    ensures { WhatIsReadIsWritable }
{}

/// Reading a text has one answer, apart from `OutOfMemory`. The text of a checkpoint is never
/// refused, and any other text has one refusal, the first that applies.
pub fn one_answer_law()
    ensures { OneCheckpointAnswer }
{}

/// Each text has an answer other than `OutOfMemory`: it is a checkpoint, or one of the refusals
/// applies.
pub fn each_answered_law()
    ensures { EachTextHasAnswer }
{}

/// A checkpoint that can be written has a text, if its root is a hash of 32 bytes.
pub fn written_law()
    ensures { EachWritableHasText }
{}

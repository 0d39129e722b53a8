//! What holds of every canonical text. No function here does anything: its contract is the law.

ghost use Rattle.pg_outline_text.specs.SpellingLaws.{CanonicalTextStands, WhatStandsIsWritable};

/// The canonical text of an outline within the limits of a text is in the grammar, and stands for that outline.
pub fn canonical_text_stands()
    ensures { CanonicalTextStands }
{}

/// Each outline that a text stands for is within these limits, so that what was read can be printed and read again.
pub fn what_stands_is_writable()
    ensures { WhatStandsIsWritable }
{}

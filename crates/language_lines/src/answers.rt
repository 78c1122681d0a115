//! What reads answer.

ghost use Rattle.language_lines.specs.Answers.{BoolsAnswer, CountersAnswer, TextsAnswer, SetsAnswer, HashesAnswer, ListsAnswer, PeaksAnswer};

/// What each read answers behind writes.
pub fn reads_answer()
    ensures bools { BoolsAnswer }
    ensures counters { CountersAnswer }
    ensures texts { TextsAnswer }
    ensures sets { SetsAnswer }
    ensures hashes { HashesAnswer }
    ensures lists { ListsAnswer }
    ensures peaks { PeaksAnswer }
{}

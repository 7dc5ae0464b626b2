//! Law of command lines: the words give one command. It is the contract of a function that does nothing.

ghost use Rattle.std.specs.Prelude.{◌≡◌, ℕ, List};
ghost use Rattle.command_words.specs.Words.{Gives};
ghost use Rattle.command_words.specs.declared.words.Chosen.{Chosen};

/// Words give one command at most.
pub fn words_give_one()
    ensures { (words : List (List ℕ)) (one other : Chosen) → Gives words one → Gives words other → one ≡ other }
{}

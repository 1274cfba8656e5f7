//! The meaning of some command lines, and laws for all.
ghost use Rattle.std.specs.Prelude.{◌≡◌, ◌∷◌, [], codes};
ghost use Rattle.clap.specs.declared.error.kind.ErrorKind.TheVariants.{
  DisplayHelp,
  DisplayVersion,
  MissingRequiredArgument,
};
ghost use Rattle.program_words.specs.Program.{AsksFor, faults};
ghost use Rattle.program_words.specs.LineLaws.{LawfulWordsName, WordsAskForOneName};
ghost use Rattle.program_words.specs.declared.commands.Command.TheVariants.{Report};
ghost use Rattle.program_words.specs.declared.commands.ReportCommand.TheVariants.{Root, Check};

/// Some command lines and their commands.
pub fn words_example()
    ensures root { AsksFor (codes "root" ∷ codes "--width" ∷ codes "200" ∷ [])
        (Report (Root (record { width = 200 }))) }
    ensures check { AsksFor (codes "check" ∷ []) (Report Check) }
    ensures no_width { faults (codes "root" ∷ []) ≡ MissingRequiredArgument ∷ [] }
    ensures help { faults (codes "root" ∷ codes "--help" ∷ []) ≡ DisplayHelp ∷ [] }
    ensures version { faults (codes "--version" ∷ []) ≡ DisplayVersion ∷ [] }
{}

/// Words without a fault name one of the commands. If they are those of two commands, both have one name and one list of
/// options.
pub fn lawful_law()
    ensures named { LawfulWordsName }
    ensures one { WordsAskForOneName }
{}

// The laws of words.
ghost use Rattle.command_words.specs.Laws.{CommandsAreOne, EachIsNamed, SpelledIsCommand};

/// Words as the table of the program's words spells them ask for the command that stands there, wherever its names lie in memory; whatever volume or names they spell, there is a command of them. Words ask for one command at most.
pub fn words_laws()
    ensures spelled { SpelledIsCommand }
    ensures named { EachIsNamed }
    ensures one { CommandsAreOne }
{}

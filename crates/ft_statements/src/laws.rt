//! Laws of the definitions.
ghost use Rattle.std.specs.Prelude.{◌≡◌, ◌↔◌, ℕ, List, [], ◌∷◌, ◌++◌, Some, None, true, false};
ghost use Rattle.shell_text.specs.WordForms.{IsInMarks};
ghost use Rattle.ft_commands.specs.Command.{Command};
ghost use Rattle.ft_statements.specs.Words.{Token, StandsFor, halved, closing, between_marks};
ghost use Rattle.ft_statements.specs.Plain.{Asks, Makes, asks, made_name};
ghost use Rattle.ft_statements.specs.Statements.{Class, spelled_command, class_of, HasClass};
ghost use Rattle.ft_statements.specs.Grammar.{IsStatement};
ghost use Rattle.ft_statements.specs.Dots.{DotCommand, Says, dot_command_of};

/// What is read of words is what the grammar spells: the command, and the class of a statement
/// where full-text tables of these names are there. None is read exactly where the grammar spells
/// none.
pub fn statements_by_grammar()
    ensures command { (ts : List Token) (c : Command) →
        (spelled_command ts ≡ Some c) ↔ IsStatement ts c }
    ensures class { (tables : List (List ℕ)) (ts : List Token) (class : Class) →
        (class_of tables ts ≡ Some class) ↔ HasClass tables ts class }
    ensures none { (tables : List (List ℕ)) (ts : List Token) →
        (class_of tables ts ≡ None) ↔ ((class : Class) → ¬ HasClass tables ts class) }
{}

/// No words spell two commands, and no statement has two classes.
pub fn one_class_each()
    ensures command { (ts : List Token) (a b : Command) →
        IsStatement ts a → IsStatement ts b → a ≡ b }
    ensures class { (tables : List (List ℕ)) (ts : List Token) (a b : Class) →
        HasClass tables ts a → HasClass tables ts b → a ≡ b }
{}

/// What is read of a dot line is what its grammar says, so a line says one thing.
pub fn dot_lines_by_grammar()
    ensures { (words : List (List ℕ)) (c : DotCommand) → (dot_command_of words ≡ c) ↔ Says words c }
{}

/// What stands between marks, each mark of its own doubled, stands for one text, which is what is
/// computed; and between the first and the last mark of a word is what is taken.
pub fn literals_by_marks()
    ensures inside { (mark : ℕ) (inside text : List ℕ) → StandsFor mark inside text
        ↔ (IsInMarks mark inside × (halved mark false inside ≡ text)) }
    ensures between { (mark : ℕ) (inside text : List ℕ) → StandsFor (closing mark) inside text →
        between_marks (mark ∷ inside ++ closing mark ∷ []) ≡ text }
{}

/// Which plain statements are run as queries, and the name that one makes, are what their forms
/// say.
pub fn plain_by_grammar()
    ensures asks { (ts : List Token) → (asks ts ≡ true) ↔ Asks ts }
    ensures made { (ts : List Token) (name : List ℕ) →
        (made_name ts ≡ Some name) ↔ Makes ts name }
{}

//! Full-text tables as a session calls them.
ghost use Rattle.std.specs.Prelude.{◌≡◌, ◌⊎◌, [], ◌∷◌, map, string_bytes, is_ok, IfOk, IfErr};
ghost use Rattle.ft_rows.specs.Store.{Note};
ghost use Rattle.ft_store.specs.Blame.{AreNotedTexts};
ghost use Rattle.ft_store.specs.Kept.{shows};
ghost use Rattle.ft_values.specs.declared.fault.Fault.TheVariants as faults;
ghost use Rattle.ft_content.specs.Views.{shown_info};
ghost use Rattle.ft_commands.specs.Views.{command_of, answer_of};
ghost use Rattle.ft_calls.specs.Kept.{FullText, IsUp, SurvivesCrash, store_value};
ghost use Rattle.ft_calls.specs.Kept.{BlamesChanges, BlamesStore, Executed, Looked, Noted};
ghost use Rattle.ft_calls.specs.Causes.{DoesForCause};
ghost use Rattle.ft_calls.specs.RowsRead.{CountsRows};

use ft_content::{Command, Fault, Reply, TableInfo};
use sqlite::Alter;

/// Full-text tables, whoever keeps them. What a call says of rows holds where the store is up as
/// the call ends.
pub trait TextTables {
    /// Where their rows stand.
    type Over: Alter;

    /// The store with the tables by rising id.
    ghost known: { Self → FullText Self.Over };

    /// The tables by rising id, each with its mark.
    fn tables(&self) -> &[TableInfo]
        ensures { map shown_info result.now ≡ (known self.now).tables };

    /// Executes a command. One that is refused leaves everything as it was. A Select that is answered
    /// reads exactly the rows that it needs.
    ///
    /// # Errors
    ///
    /// The first fault that the command deserves, in the order of the causes of `Fault`; or `Store`
    /// or `Memory`, where the store or memory refused it.
    fn execute(&mut self, command: &Command) -> Result<Reply, Fault>
        ensures does { DoesForCause Self.Over.Store (known self.old)
            (Executed (command_of command.now) (answer_of result)) (known self.new) }
        ensures counts { CountsRows Self.Over.Store (known self.old) (command_of command.now)
            (answer_of result) (known self.new) };

    /// Notes a name, in its latest spelling.
    ///
    /// # Errors
    ///
    /// `Store` or `Memory`, where the store or memory refused it. The store does so only for what
    /// lies outside it, or since the row of the name can't be put.
    fn note(&mut self, name: &str) -> Result<(), Fault>
        ensures does { DoesForCause Self.Over.Store (known self.old) (Noted name.now (is_ok result))
            (known self.new) }
        ensures fault { IfErr result (λ fault. (fault ≡ faults.Store) ⊎ (fault ≡ faults.Memory)) }
        ensures refused { BlamesChanges (shows Self.Over.Store (known self.old).store)
            (shows Self.Over.Store (known self.new).store) result (Note name.now ∷ []) };

    /// The noted names, in the order of their small letters.
    ///
    /// # Errors
    ///
    /// `Store` or `Memory`, where the store or memory refused the read. Where the names are texts,
    /// the store does so only for what lies outside it.
    fn noted(&mut self) -> Result<Vec<String>, Fault>
        ensures names { IsUp Self.Over.Store (known self.new)
            → IfOk result (λ names. map string_bytes names.items
            ≡ map (λ n. n.1) (store_value Self.Over.Store (known self.old)).noted) }
        ensures does { DoesForCause Self.Over.Store (known self.old) (Looked (is_ok result))
            (known self.new) }
        ensures fault { IfErr result (λ fault. (fault ≡ faults.Store) ⊎ (fault ≡ faults.Memory)) }
        ensures refused { AreNotedTexts (store_value Self.Over.Store (known self.old))
            → BlamesStore (shows Self.Over.Store (known self.old).store)
            (shows Self.Over.Store (known self.new).store) result };

    /// The law that a crash leaves what a store that is up holds, and nothing else.
    fn is_settled(&self)
        ensures { SurvivesCrash Self.Over.Store (known self.now) };
}

//! Full-text tables over a store.
use crate::commands::{execute_command, planned_changes};
use crate::row_state::opened_tables;
use crate::tables::note_name;
use ft_content::{Command, Fault, Reply, TableInfo};
use ft_store::{RowChange, Store, StoreFault};
use sqlite::Alter;
use std::alloc::Global;
use std::marker::Model;

/// Full-text tables over a store.
///
/// What a call says of rows holds where it is up as the call ends: so far the disk returned what
/// was written, and the store is open. After a fault tables, documents and index are as they were.
#[derive(Drop)]
pub struct FullText<S: Alter> {
    store: Store<S>,
    alloc: Global,
    // By rising id.
    tables: Vec<TableInfo>,
}

/// A store that was not taken, as it stands, with the cause.
#[derive(Drop)]
pub struct NewFault<S: Alter> {
    pub store: Store<S>,
    pub cause: StoreFault,
}

impl<S: Alter> Model for FullText<S> {
    ghost use Rattle.std.specs.Prelude.{map};
    ghost use Rattle.ft_content.specs.Views.{shown_info};
    ghost use Rattle.ft_calls.specs.Kept as kept;
    ghost use Rattle.ft_calls.specs.Kept.{full_text_code, HoldsSome};

    ghost Value = { kept.FullText S };

    ghost coded = { full_text_code S.code };

    ghost view = { λ f. record { store = f.store; tables = map shown_info f.tables.items } };

    ghost invariant = { λ f. HoldsSome S.Store
        (record { store = f.store; tables = map shown_info f.tables.items }) };
}

impl<S: Alter> FullText<S> {
    ghost use Rattle.std.specs.Prelude.{◌≡◌, ◌⊎◌, ◌↔◌, [], ◌∷◌, map, string_bytes, is_ok, IsTrue, IfOk, IfErr};
    ghost use Rattle.ft_store.specs.Calls.{IsPlainFault};
    ghost use Rattle.ft_store.specs.Blame.{IsBlamed, AreTableTexts, AreNotedTexts};
    ghost use Rattle.ft_store.specs.Kept.{shows, value_in};
    ghost use Rattle.sqlite.specs.State.{HasCleanDisk};
    ghost use Rattle.ft_rows.specs.Store.{nothing_held, Note};
    ghost use Rattle.ft_values.specs.declared.fault.Fault.TheVariants as faults;
    ghost use Rattle.ft_content.specs.Step.{Contents};
    ghost use Rattle.ft_content.specs.Views.{shown_info};
    ghost use Rattle.ft_commands.specs.Views.{command_of, answer_of};
    ghost use Rattle.ft_index.specs.Planned.{changes_of};
    ghost use Rattle.ft_calls.specs.RowsRead.{CountsRows};
    ghost use Rattle.ft_index.specs.DocumentsRead.{Looks};
    ghost use Rattle.ft_index.specs.Opened.{OpensStore, OpensWhatIsLeft};
    ghost use Rattle.ft_calls.specs.Kept.{IsUp, store_value, Holds, AreSound, OnlyLooks, BlamesStore, BlamesChanges, Executes, Plans, Notes};
    ghost use Rattle.ft_calls.specs.Causes.{BlamesCommand};
    ghost use Rattle.ft_calls.specs.Kept.{CommitsCommand, CommitsNote, HoldsOneContents, Leaves, SurvivesCrash};

    /// Takes a store, and marks each table whose rows aren't documents with exactly the index rows
    /// made from scratch. The store is only read; where a read is refused it is handed back.
    pub fn new(alloc: Global, store: Store<S>) -> Result<FullText<S>, NewFault<S>>
        ensures opened { IfOk result (λ made. OpensStore S.Store store made) }

        // Of an empty store there are no tables.
        ensures empty { value_in S.Store store ≡ nothing_held
            → IfOk result (λ made. IsUp S.Store made → Holds S.Store made []) }
        ensures refused { IfErr result (λ fault. Looks S.Store store fault.store) }
        ensures cause { IfErr result (λ fault. IsPlainFault fault.cause) }
        ensures blames { IfErr result (λ fault. AreTableTexts (value_in S.Store store)
            → HasCleanDisk (shows S.Store fault.store) → fault.cause ≡ StoreFault.Refused
            → IsBlamed (shows S.Store store) (shows S.Store fault.store)) }
    {
        let mut store = store;
        store.is_in_order();
        match opened_tables(alloc, &mut store) {
            Ok(tables) => Ok(FullText {
                store,
                alloc,
                tables,
            }),
            Err(cause) => Err(NewFault { store, cause }),
        }
    }

    /// The tables by rising id, each with its mark.
    pub fn tables(&self) -> &[TableInfo]
        ensures { map shown_info result.now ≡ self.now.tables }
    {
        self.tables.as_slice()
    }

    /// Executes a command. One that is refused leaves everything as it was. The store is asked
    /// first whether it is open.
    ///
    /// # Errors
    ///
    /// The first fault that the command deserves, in the order of the causes of `Fault`; or `Store`
    /// or `Memory`, where the store or memory refused it.
    pub fn execute(&mut self, command: &Command) -> Result<Reply, Fault>
        ensures executes { Executes S.Store self.old (command_of command.now) (answer_of result)
            self.new }
        ensures leaves { Leaves S.Store self.old self.new (is_ok result)
            (CommitsCommand S.Store self.old (command_of command.now)) }

        // A Select with MATCH reads the entries of its terms, and where an item is a column the
        // documents that it answers.
        ensures counts { CountsRows S.Store self.old (command_of command.now) (answer_of result)
            self.new }
        ensures refused { BlamesCommand S.Store self.old (command_of command.now)
            (answer_of result) self.new }
    {
        if let Err(fault) = self.store.ping() {
            self.store.is_settled();
            return Err(Fault::from(fault));
        }
        let result = execute_command(self.alloc, &mut self.store, &mut self.tables, command);
        self.store.is_settled();
        result
    }

    /// The row changes that a command asks for, without making them.
    ///
    /// # Errors
    ///
    /// As `execute` has them.
    pub fn plan(&mut self, command: &Command) -> Result<Vec<RowChange>, Fault>
        ensures plan { IsUp S.Store self.new
            → Plans S.Store self.old (command_of command.now) (changes_of result) }
        ensures looks { OnlyLooks S.Store self.old self.new }
        ensures refused { BlamesStore (shows S.Store self.old.store) (shows S.Store self.new.store)
            result }
    {
        planned_changes(self.alloc, &mut self.store, self.tables.as_slice(), command)
    }

    /// Whether each table's rows are documents with exactly the index rows made from scratch. They
    /// are read and compared.
    pub fn check_all(&mut self) -> Result<bool, Fault>
        ensures all { IsUp S.Store self.new
            → IfOk result (λ all. (contents : Contents) → Holds S.Store self.old contents
            → IsTrue all ↔ AreSound contents) }
        ensures fault { IfErr result (λ fault. (fault ≡ faults.Store) ⊎ (fault ≡ faults.Memory)) }
        ensures looks { OnlyLooks S.Store self.old self.new }
        ensures refused { AreTableTexts (store_value S.Store self.old)
            → BlamesStore (shows S.Store self.old.store) (shows S.Store self.new.store)
            result }
    {
        let tables = opened_tables(self.alloc, &mut self.store)?;
        Ok(tables.iter().all(|table| table.sound))
    }

    /// Notes a name, in its latest spelling. The store is asked first whether it is open.
    pub fn note(&mut self, name: &str) -> Result<(), Fault>
        ensures noted { Notes S.Store self.old name.now (is_ok result) self.new }
        ensures leaves { Leaves S.Store self.old self.new (is_ok result)
            (CommitsNote S.Store self.old name.now) }
        ensures fault { IfErr result (λ fault. (fault ≡ faults.Store) ⊎ (fault ≡ faults.Memory)) }
        ensures refused { BlamesChanges (shows S.Store self.old.store)
            (shows S.Store self.new.store) result (Note name.now ∷ []) }
    {
        let result = note_name(self.alloc, &mut self.store, name);
        self.store.is_settled();
        result
    }

    /// The law that a crash leaves what a store that is up holds, and nothing else.
    pub fn is_settled(&self)
        ensures { SurvivesCrash S.Store self.now }
    {
        self.store.is_settled();
    }

    /// The noted names, in the order of their small letters.
    pub fn noted(&mut self) -> Result<Vec<String>, Fault>
        ensures names { IsUp S.Store self.new
            → IfOk result (λ names. map string_bytes names.items
            ≡ map (λ n. n.1) (store_value S.Store self.old).noted) }
        ensures fault { IfErr result (λ fault. (fault ≡ faults.Store) ⊎ (fault ≡ faults.Memory)) }
        ensures looks { OnlyLooks S.Store self.old self.new }
        ensures leaves { Leaves S.Store self.old self.new (is_ok result) (λ _. ⊥) }
        ensures refused { AreNotedTexts (store_value S.Store self.old)
            → BlamesStore (shows S.Store self.old.store) (shows S.Store self.new.store)
            result }
    {
        self.store.is_settled();
        self.store.ping()?;
        Ok(self.store.noted()?)
    }

    /// The store as it stands.
    pub fn into_store(self) -> Store<S>
        ensures { result ≡ self.store }
    {
        let FullText { store, .. } = self;
        store
    }

    /// What a store holds is settled: no two contents are held by one store. So `new` gives each
    /// table one mark, and of what a crash left the marks of the contents before the command or
    /// after it.
    pub fn one_store_holds_one_contents()
        ensures { HoldsOneContents }
    {}

    /// A store that holds contents, as one that a crash left after `execute`, `note` or the making
    /// of a store, is opened by `new` with their marks: what was sound is sound.
    pub fn opens_what_is_left()
        ensures { OpensWhatIsLeft S.Store }
    {}
}

//! Full-text tables over a store, as a session calls them.
use crate::full_text::FullText;
use ft_calls::TextTables;
use ft_content::{Command, Fault, Reply, TableInfo};
use sqlite::Alter;

impl<S: Alter> TextTables for FullText<S> {
    type Over = S;

    ghost known = { λ it. it };

    fn tables(&self) -> &[TableInfo] {
        FullText::tables(self)
    }

    fn execute(&mut self, command: &Command) -> Result<Reply, Fault> {
        FullText::execute(self, command)
    }

    fn note(&mut self, name: &str) -> Result<(), Fault> {
        FullText::note(self, name)
    }

    fn noted(&mut self) -> Result<Vec<String>, Fault> {
        FullText::noted(self)
    }

    fn is_settled(&self) {
        FullText::is_settled(self);
    }
}

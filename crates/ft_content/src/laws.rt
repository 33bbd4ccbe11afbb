//! Laws of the definitions.
ghost use Rattle.ft_content.specs.Content.{RowsHoldContent};
ghost use Rattle.ft_content.specs.Laws.{CommandsKeepContent, GoInPieces};
ghost use Rattle.ft_content.specs.Meaning.{ListsMeanContent};

/// What a command makes of a content is a content.
pub fn commands_keep_contents()
    ensures { CommandsKeepContent }
{}

/// A content is read back from its rows, so no two contents have the same.
pub fn rows_hold_one_content()
    ensures { RowsHoldContent }
{}

/// A command may be done in pieces: row by row, and with the documents cut off before their rows
/// are made.
pub fn commands_in_pieces()
    ensures { GoInPieces }
{}

/// The posting lists of a content mean its documents, so a query over the lists finds the documents
/// that a MATCH chooses.
pub fn lists_mean_documents()
    ensures { ListsMeanContent }
{
    ft_match::postings_of_texts();
    ft_match::documents_of_texts();
}

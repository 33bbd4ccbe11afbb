//! Laws of the definitions: each holds of all texts, lexemes and trees.
ghost use Rattle.std.specs.Prelude.{◌≡◌, ◌≢◌, ◌↔◌, ℕ, ℤ, ◌<ℤ◌, false, List, [], Option, All, AllPairs, Contains, map, encode_utf8};
ghost use Rattle.ft_match.specs.Tokens.{PlainToken, AreTokens, is_eligible, tokens_of};
ghost use Rattle.ft_match.specs.Trees.{PlainTerm, PlainPhrase, PlainLink, Tree};
ghost use Rattle.ft_match.specs.Lexemes.{Part, AreParts, parts_of, Lexeme, lexemes_of};
ghost use Rattle.ft_match.specs.Reads.{Reads, IsMalformed, first_fault, query_of};
ghost use Rattle.ft_match.specs.Documents.{Place, Posting, IsBefore, AreDocuments, postings_of, documents_of};
ghost use Rattle.ft_match.specs.Occurs.{takes, token_fits, IsChoice, choices, accepts};

use crate::query::QueryFault;

/// A text has one list of tokens, the computed one.
pub fn tokens_once()
    ensures computed { (text : List ℕ) → AreTokens text (tokens_of text) }
    ensures once { (text : List ℕ) (xs ys : List PlainToken) → AreTokens text xs → AreTokens text ys
        → xs ≡ ys }
{}

/// Each byte of a character is eligible exactly where the character is.
pub fn eligible_by_character()
    ensures { (c : ℕ) → All (λ b. is_eligible b ≡ is_eligible c) (encode_utf8 c) }
{}

/// A MATCH text falls into parts of the forms in one way, the computed one.
pub fn parts_by_forms()
    ensures computed { (text : List ℕ) → AreParts text (parts_of text) }
    ensures once { (text : List ℕ) (parts : List Part) → AreParts text parts
        → parts ≡ parts_of text }
{}

/// What `query_of` answers: a fault by the tests in their order, and else what the grammar says.
pub fn query_of_text()
    ensures query { (columns : List (List ℕ)) (default : Option ℕ) (text : List ℕ)
        (query : Option Tree)
        → (query_of columns default text ≡ Ok query) ↔
        ((first_fault columns text ≡ None) × Reads default (lexemes_of columns text) query) }
    ensures too_large { (columns : List (List ℕ)) (default : Option ℕ) (text : List ℕ)
        → (query_of columns default text ≡ Err QueryFault.TooLarge) ↔
        (first_fault columns text ≡ Some QueryFault.TooLarge) }
    ensures malformed { (columns : List (List ℕ)) (default : Option ℕ) (text : List ℕ)
        → (query_of columns default text ≡ Err QueryFault.Malformed) ↔ IsMalformed columns default
        text }
    ensures no_memory { (columns : List (List ℕ)) (default : Option ℕ) (text : List ℕ) →
        query_of columns default text ≢ Err QueryFault.Memory }
{}

/// No lexemes read as two queries.
pub fn reads_once()
    ensures { (default : Option ℕ) (lexemes : List Lexeme) (a b : Option Tree) →
        Reads default lexemes a → Reads default lexemes b → a ≡ b }
{}

/// The computed choices of a chain are its choices.
pub fn choices_of_chain()
    ensures { (postings : List Posting) (p : PlainPhrase) (links : List PlainLink)
        (choice : List Place)
        → Contains (choices postings p links) choice ↔ IsChoice postings p links choice }
{}

/// The postings of a document's texts are in order, and a term takes a posting exactly where the
/// text's token of that number fits it.
pub fn postings_of_texts()
    ensures ordered { (texts : List (List ℕ))
        → AllPairs IsBefore (postings_of (map tokens_of texts)) }
    ensures takes { (texts : List (List ℕ)) (t : PlainTerm) (column pos : ℕ)
        → takes (postings_of (map tokens_of texts)) t column pos
        ≡ token_fits (map tokens_of texts) t column pos }
{}

/// The documents of rows whose docids rise are in order, and what they leave out is never accepted.
pub fn documents_of_texts()
    ensures ordered { (rows : List (ℤ × List (List ℕ))) → AllPairs (λ a b. a.0 <ℤ b.0) rows →
        AreDocuments (documents_of (map (λ row. (row.0, map tokens_of row.1)) rows)) }
    ensures left_out { (tree : Tree) → accepts [] tree ≡ false }
{}

//! What a command that writes one file writes and shows.
ghost use Rattle.std.specs.Prelude.{◌≡◌, ◌∷◌, [], IfOk, length};
ghost use Rattle.commands.specs.Names.{texts_of};
ghost use Rattle.commands.specs.declared.ending.Finding.TheVariants.{Fine};

use commands::{Finding, Product};
use std::alloc::{AllocError, Global};

/// The text of a command's one file, and the line that it prints.
#[derive(Drop)]
pub struct OneFile {
    pub text: Vec<u8>,
    pub line: Vec<u8>,
}

/// The product of these texts: one file, and the line.
pub fn one_file_product(alloc: Global, texts: OneFile) -> Result<Product, AllocError>
    ensures texts { IfOk result (λ p. texts_of p.texts.items ≡ texts.text.items ∷ []) }
    ensures count { IfOk result (λ p. length p.texts.items ≡ 1) }
    ensures shown { IfOk result (λ p. p.shown ≡ texts.line) }
    ensures fine { IfOk result (λ p. p.finding ≡ Fine) }
{
    let mut files = Vec::new(alloc);
    files.push(texts.text)?;
    Ok(Product {
        texts: files,
        shown: texts.line,
        finding: Finding::Fine,
    })
}

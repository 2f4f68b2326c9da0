//! Listings in each form, as scripts and as statements.

ghost use Rattle.std.specs.Prelude.{◌≡◌, ◌⊎◌, ℕ, List, IfErr, IfOk, MatchResult};
ghost use Rattle.pr_listing.specs.FormLaws.{NotBoth, OneFault, OneList, OneText};
ghost use Rattle.pr_listing.specs.Forms.{HasNoPlainText, HasNoText, HasPlainText, HasText, IsListing, IsRefused, plain_form};

use crate::containers::program_in;
use crate::fault::ListingFault;
use crate::found::found_form;
use crate::names::Spelling;
use crate::program::program_text;
use crate::typed::typed_text;
use pr_basic::{ScriptFault, Statement, each_text_is_a_script_or_has_one_fault, read_script};
use std::alloc::Global;
use thiserror::Error;

/// The form of a listing.
#[derive(Clone, Copy, Debug, PartialEq, Eq)]
pub enum ListingForm {
    /// The text of a script.
    Text,
    /// A saved program, as it is or in a P00 or T64 file.
    Program,
    /// petcat's text of a program.
    Petcat,
    /// A listing as magazines print it: capitals, and names of keys in braces.
    Magazine,
    /// The form that the listing's first bytes show ([`found_form`]).
    Auto,
}

/// Why a listing is refused.
#[derive(Clone, Copy, Debug, PartialEq, Eq, Error)]
pub enum Refusal {
    /// It has no text of a script.
    #[error("{0}")]
    Listing(ListingFault),
    /// Its text has this first fault, or memory was refused.
    #[error("{0}")]
    Script(ScriptFault),
}

/// Makes the script's text that a listing in this form has: a line for each line of the listing. It
/// is Ok exactly where the listing has a text. A listing that is text is itself.
///
/// # Errors
///
/// Those of [`program_text`] or [`typed_text`].
pub fn script_text(
    alloc: Global,
    form: ListingForm,
    bytes: Vec<u8>,
) -> Result<Vec<u8>, ListingFault>
    ensures ok { IfOk result (λ text. HasText form bytes.items text.items) }
    ensures err { IfErr result (λ fault. (fault ≡ ListingFault.NoMemory) ⊎ HasNoText form bytes.items fault) }
    ensures complete { (text : List ℕ) → HasText form bytes.items text → MatchResult result (λ t. t.items ≡ text)
        (λ fault. fault ≡ ListingFault.NoMemory) }
{
    let plain = plain_form(form, &bytes);
    plain_text(alloc, plain, bytes)
}

/// The form in which a listing is read: the one that its first bytes show, where it is to be found in them.
pub fn plain_form(form: ListingForm, bytes: &[u8]) -> ListingForm
    ensures { result ≡ plain_form form bytes.now }
{
    match form {
        ListingForm::Auto => found_form(bytes),
        ListingForm::Text => ListingForm::Text,
        ListingForm::Program => ListingForm::Program,
        ListingForm::Petcat => ListingForm::Petcat,
        ListingForm::Magazine => ListingForm::Magazine,
    }
}

/// Makes the script's text that a listing in this form, which is known, has.
fn plain_text(alloc: Global, form: ListingForm, bytes: Vec<u8>) -> Result<Vec<u8>, ListingFault>
    ensures ok { IfOk result (λ text. HasPlainText form bytes.items text.items) }
    ensures err { IfErr result (λ fault. (fault ≡ ListingFault.NoMemory) ⊎ HasNoPlainText form bytes.items fault) }
    ensures complete { (text : List ℕ) → HasPlainText form bytes.items text → MatchResult result (λ t. t.items ≡ text)
        (λ fault. fault ≡ ListingFault.NoMemory) }
{
    match form {
        ListingForm::Text | ListingForm::Auto => Ok(bytes),
        ListingForm::Program => program_text(alloc, program_in(&bytes)),
        ListingForm::Petcat => typed_text(alloc, Spelling::Petcat, &bytes),
        ListingForm::Magazine => typed_text(alloc, Spelling::Magazine, &bytes),
    }
}

/// Reads the statements of a listing in this form, in order: those of which its text is a script.
///
/// # Errors
///
/// - [`Refusal::Listing`]: the listing has no text.
/// - [`Refusal::Script`]: the text has this first fault; its line is the listing's.
///
/// Either may be lack of memory.
pub fn read_listing(
    alloc: Global,
    form: ListingForm,
    bytes: Vec<u8>,
) -> Result<Vec<Statement>, Refusal>
    ensures read { IfOk result (λ statements. IsListing form bytes.items statements.items) }
    ensures refused { IfErr result (λ refusal. (refusal ≡ Refusal.Listing ListingFault.NoMemory)
        ⊎ ((refusal ≡ Refusal.Script ScriptFault.NoMemory) ⊎ IsRefused form bytes.items refusal)) }
{
    let text = match script_text(alloc, form, bytes) {
        Ok(text) => text,
        Err(fault) => return Err(Refusal::Listing(fault)),
    };
    match read_script(alloc, &text) {
        Ok(statements) => Ok(statements),
        Err(fault) => Err(Refusal::Script(fault)),
    }
}

/// A law, with nothing to run: a listing in a form has one text or one fault, never both, and it is of one
/// list of statements at most.
pub fn each_listing_has_one_text_or_one_fault()
    ensures one_text { OneText }
    ensures one_list { OneList }
    ensures one_fault { OneFault }
    ensures not_both { NotBoth }
{
    each_text_is_a_script_or_has_one_fault();
}

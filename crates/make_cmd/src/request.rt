//! What the list of a made input is asked of.
ghost use Rattle.std.specs.Prelude.{◌≡◌, [], ◌∷◌, IfOk, map, string_bytes};
ghost use Rattle.loc_base.specs.Name.{IsName};
ghost use Rattle.requests.specs.Views.{make_asked, reading_asked, texts_asked};
ghost use Rattle.find_cmd.specs.Views.{list_asked};
ghost use Rattle.make_cmd.specs.Asked.{finding_of};

use find_cmd::ListRequest;
use front_end::Format;
use loc_base::{Name, NoMemory};
use requests::{MakeRequest, Reading, Texts};
use std::alloc::Global;

/// A word as a name.
fn name_of(alloc: Global, word: &[u8]) -> Result<Name, NoMemory>
    requires { IsName word.now }
    ensures { IfOk result (λ name. name ≡ word.now) }
{
    match Name::new(alloc, word)? {
        Some(name) => Ok(name),
        None => unreachable!(),
    }
}

/// A list of one text.
fn one_text(alloc: Global, name: &str) -> Result<Vec<String>, NoMemory>
    ensures { IfOk result (λ names. map string_bytes names.items ≡ name.now ∷ []) }
{
    let mut names = Vec::new(alloc);
    names.push(String::from_str(alloc, name)?)?;
    Ok(names)
}

/// The made design and trace, as texts that are read.
fn read_texts(alloc: Global, request: &MakeRequest) -> Result<Texts, NoMemory>
    ensures { IfOk result (λ texts. texts_asked texts ≡ (finding_of (make_asked request.now)).sources.texts) }
{
    Ok(Texts {
        design: String::from_str(alloc, request.design.as_str())?,
        format: Format::Verilog,
        top: name_of(alloc, b"made")?,
        traces: one_text(alloc, request.trace.as_str())?,
        scope: None,
        zero_inputs: false,
    })
}

/// The made design and trace, with the clock by which they are read.
pub(crate) fn reading_of(alloc: Global, request: &MakeRequest) -> Result<Reading, NoMemory>
    ensures { IfOk result (λ reading. reading_asked reading ≡ (finding_of (make_asked request.now)).sources) }
{
    Ok(Reading {
        texts: read_texts(alloc, request)?,
        clock: Some(name_of(alloc, b"clk")?),
    })
}

/// What the list of the made design and trace is asked of.
pub(crate) fn list_of<'a>(reading: &'a Reading, request: &'a MakeRequest) -> ListRequest<'a>
    requires { reading_asked reading.now ≡ (finding_of (make_asked request.now)).sources }
    ensures { list_asked result ≡ finding_of (make_asked request.now) }
{
    ListRequest {
        sources: reading.sources(),
        listing: &request.listing,
        waves: None,
        checkpoints: None,
    }
}

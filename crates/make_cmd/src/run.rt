//! A run of the command.
ghost use Rattle.std.specs.Prelude.{◌≡◌, ◌≢◌, ◌&&◌, Bool, true};
ghost use Rattle.suspect_map.specs.Choose.{joined};
ghost use Rattle.command_contract.specs.Contract.{Keeps, counts_of, run_of};
ghost use Rattle.find_cmd.specs.Asked.{AreKnown, IsAsked as IsListAsked};
ghost use Rattle.find_cmd.specs.Views.{list_asked};
ghost use Rattle.make_cmd.specs.Asked.{IsAsked, finding_of};
ghost use Rattle.make_cmd.specs.Making.{making, quiet_list};
ghost use Rattle.requests.specs.Views.{make_asked};
ghost use Rattle.make_cmd.specs.Shelves.{texts_of};

use crate::made::{Made, write_texts};
use crate::made_shelf::MadeShelf;
use crate::request::list_of;
use find_cmd::{ListRequest, list_read};
use front_end::FrontEnd;
use io_ports::{Shelf, Sink};
use load_problem::{Tools, read};
use loc_base::{Gate, NoMemory};
use refusal::{Notes, print_line};
use requests::MakeRequest;
use std::alloc::Global;
use std::thread::Threads;
use suspect_map::Granularity;
use write_order::WriteErr;

/// Lists the sets of suspects of the made texts, which are read from a shelf of their own.
fn list_texts<F: FrontEnd, R: Threads + Sync, G: Gate + Sync, S: Shelf, O: Sink, N: Notes>(
    alloc: Global,
    tools: &Tools<'_, F, R, G>,
    list: &ListRequest<'_>,
    texts: &mut MadeShelf<'_>,
    shelf: &mut S,
    out: &mut O,
    notes: &mut N,
) -> u8
    requires asked { IsListAsked (list_asked list.now) }
    requires known { AreKnown (λ kind. called (kind.vtable, kind.value)) tools.now.kinds.now (list_asked list.now) }
    ensures tells { O.tells out.new ≡ O.tells out.old }
    ensures no_fault { result ≢ 5 }
    ensures keeps { (told : Bool) → (told ≡ true → S.tells shelf.old ≡ true) → (told ≡ true → O.tells out.old ≡ true)
        → Keeps (quiet_list F.means F.refuses
        (joined (λ kind. called (kind.vtable, kind.value)) (λ kind. lists (kind.vtable, kind.value)) tools.now.kinds.now)
        (list_asked list.now))
        (run_of told (texts_of texts.old) (S.written shelf.old) (S.written shelf.new) (O.written out.old) (O.written out.new)
        (counts_of (S.faults shelf.old) (S.faults shelf.new) (O.faults out.old) (O.faults out.new)))
        result }
{
    let found = read(alloc, tools, &list.wanted(), texts, notes);
    list_read(alloc, tools, list, found, shelf, out, notes)
}

/// Makes the design and the trace of a number, writes them, lists the sets of suspects that can make the trace right, and prints the
/// numbers of the input. It answers the status of the program, and loads nothing.
///
/// | status | meaning | last line |
/// |---|---|---|
/// | 0 | the list is whole | `made N stages S width W cycles C` behind `complete N` |
/// | 1 | a front of it is listed | the same behind `front N budget`, `front N sets` |
/// | 3 | a text is refused | `input CODE` and where |
/// | 4 | a limit is passed | `limit CODE`, `limit size` |
/// | 6 | writing failed | none |
/// | 7 | memory was wanted | `front N memory`, `memory`, or none |
pub fn make<F: FrontEnd, R: Threads + Sync, G: Gate + Sync, S: Shelf, O: Sink, N: Notes>(
    alloc: Global,
    tools: &Tools<'_, F, R, G>,
    request: &MakeRequest,
    shelf: &mut S,
    out: &mut O,
    notes: &mut N,
) -> u8
    requires asked { IsAsked (make_asked request.now) }
    requires known { AreKnown (λ kind. called (kind.vtable, kind.value)) tools.now.kinds.now (finding_of (make_asked request.now)) }
    ensures { Keeps (making F.means F.refuses
        (joined (λ kind. called (kind.vtable, kind.value)) (λ kind. lists (kind.vtable, kind.value)) tools.now.kinds.now)
        (make_asked request.now))
        (run_of (S.tells shelf.old && O.tells out.old) (S.texts shelf.old) (S.written shelf.old) (S.written shelf.new)
        (O.written out.old) (O.written out.new)
        (counts_of (S.faults shelf.old) (S.faults shelf.new) (O.faults out.old) (O.faults out.new)))
        result }
{
    let made = match Made::of(alloc, request) {
        Ok(made) => made,
        Err(NoMemory) => return print_line(b"memory\n", 7, out),
    };
    let Made {
        mut texts,
        line,
        reading,
    } = made;
    match write_texts(&texts, shelf, notes) {
        Ok(()) => {}
        Err(WriteErr::Failed) => return 6,
        Err(WriteErr::NoMemory) => return print_line(b"memory\n", 7, out),
    }
    let list = list_of(&reading, request);
    let status = list_texts(alloc, tools, &list, &mut texts, shelf, out, notes);
    if status > 1 {
        return status;
    }
    print_line(&line, status, out)
}

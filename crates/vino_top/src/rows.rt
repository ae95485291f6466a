//! The line of a row that was found.

ghost use Rattle.std.specs.Prelude.{◌≡◌, ◌++◌, codes, decimal, IfSome};
ghost use Rattle.kernel_data.specs.declared.RawRow.{RawRow};
ghost use Rattle.script_model.specs.Text.{line, row_text};
ghost use Rattle.kernel_core.specs.PlacedSections.{row_found, IsRow};
ghost use Rattle.running_kernel.specs.Views.{placed_of, IsRunning};

use call_pieces::{Calls, Policy};
use kernel_core::{FoundRow, Kernel, Section};
use line_text::{LentRow, Text, print_lent, print_row};

/// `text` becomes the line of the row that stands there, for event n.
pub fn print_found<C: Calls, B: Policy>(
    kernel: &Kernel<C, B>,
    n: u32,
    found: &FoundRow,
    text: &mut Text,
)
    requires running { IsRunning kernel.now.running }
    requires found { IsRow (placed_of kernel.now.running) found.now }
    ensures { IfSome (row_found (placed_of kernel.now.running) found.now)
        (λ (row : RawRow). text.new ≡ line (decimal n ++ codes " raw " ++ row_text row)) }
{
    let store = &kernel.running.store;
    let p = found.place as u8;
    match found.section {
        Section::Queue => print_lent(n, &LentRow::Queue(store.procs.rows()), text),
        Section::Accounts => print_lent(n, &LentRow::Acct(p, &store.amounts(p)), text),
        Section::Cells => print_lent(n, &LentRow::Cells(p, &store.cells(p)), text),
        Section::Policies => {
            print_lent(
                n,
                &LentRow::Pol {
                    kind: p,
                    policy: store.chosen(p),
                    parameter: store.param(p),
                },
                text,
            )
        }
        _ => print_whole(kernel, n, found, text),
    }
}

/// `text` becomes the line of the row that stands there, for event n, by way of the whole row.
fn print_whole<C: Calls, B: Policy>(
    kernel: &Kernel<C, B>,
    n: u32,
    found: &FoundRow,
    text: &mut Text,
)
    requires running { IsRunning kernel.now.running }
    requires found { IsRow (placed_of kernel.now.running) found.now }
    ensures { IfSome (row_found (placed_of kernel.now.running) found.now)
        (λ (row : RawRow). text.new ≡ line (decimal n ++ codes " raw " ++ row_text row)) }
{
    if let Some(row) = kernel.row_at(found) {
        print_row(n, &row, text);
    }
}

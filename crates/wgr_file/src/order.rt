//! An order of the operator on the register in files.
ghost use Rattle.std.specs.Prelude.{◌≡◌, IfErr, IfOk};
ghost use Rattle.sqlite.specs.WalFiles.{image_at};
ghost use Rattle.wgr_file.specs.OnFiles.{FilesStay, HasEnded, WereEarlier, WereForeign, WereNotGood};
ghost use Rattle.wgr_schema.specs.declared.fault.RegisterFault.TheVariants.{EarlierVersion, NotARegister, NotEmpty, NotGood};

use crate::database::Closed;
use crate::opening::{Unopened, close, open_register};
use sqlite::{FileFrom, Start};
use sqlite_disk::Disk;
use wgr_register::{Done, Order, OrderFault};

/// Does an order on the register in the file at this path, or refuses it, and gives the files back as
/// they were closed.
pub fn operate<S: Start>(
    rt: &HostRuntime,
    path: &str,
    start: S,
    order: &Order,
) -> Result<(Result<Done, OrderFault>, Closed<S>), Unopened<S>>
    ensures ended { IfOk result (λ r. HasEnded ⟦<FileFrom<S> as Disk>⟧ (image_at S.Start) r.1 order.now r.0) }
    ensures kept { IfErr result (λ e. FilesStay ⟦<FileFrom<S> as Disk>⟧ (image_at S.Start) e.files) }
    ensures foreign { IfErr result (λ e. e.fault ≡ NotARegister → WereForeign ⟦<FileFrom<S> as Disk>⟧ (image_at S.Start) e.files) }
    ensures earlier { IfErr result (λ e. e.fault ≡ EarlierVersion → WereEarlier ⟦<FileFrom<S> as Disk>⟧ (image_at S.Start) e.files) }
    ensures bad { IfErr result (λ e. e.fault ≡ NotGood → WereNotGood ⟦<FileFrom<S> as Disk>⟧ (image_at S.Start) e.files) }
    ensures taken { IfErr result (λ e. e.fault ≡ NotEmpty → ⊥) }
{
    let mut register = open_register(rt, path, start)?;
    let ended = register.operate(rt.alloc(), order);
    Ok((ended, close(register)))
}

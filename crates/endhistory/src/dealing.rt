//! How the seats of a new history are dealt.
ghost use Rattle.std.specs.Prelude.{◌≡◌, ◌+◌, ◌<◌, ◌≤◌, [], ◌^◌, length, All, IfOk, map};
ghost use Rattle.std.specs.List.{range_with_len};
ghost use Rattle.endhistory.specs.declared.views.Role.TheVariants.{Unopened, Nobody};
ghost use Rattle.endhistory.specs.Blocks.{AreWide, IsSizes};
ghost use Rattle.endhistory.specs.Tells.{opened, writer_view, reader_view, dealing};
ghost use Rattle.endhistory.specs.Seats.{IsAt, IsNewReader, IsNewWriter, number_of, blocks_of};

use crate::blocks::BlockTag;
use crate::history::{History, Reader, Writer};
use crate::steps::{DealReader, DealWriter, Given, Place, Top};
use crate::views::Sizes;
use atomic_table::Table;
use std::alloc::{AllocError, Global};
use std::marker::Brand;

// The writer's seat, split from the first one; both have the tag's list of blocks from here on.
pub(crate) fn add_writer<T: BlockTag, B: Given>(top: &Top, seat: &mut Place, tag: &T) -> Place
    requires at { IsAt top.now.table_id top.now.key seat.old × (seat.old.me.0.role ≡ Unopened) }
    requires picked { B.given ≡ T.blocks tag.now }
    ensures seat { (seat.new.table_id ≡ seat.old.table_id)
        × (seat.new.me.0 ≡ opened (T.blocks tag.now) seat.old.me.0) }
    ensures writer { (result.table_id ≡ seat.old.table_id)
        × (result.me ≡ (writer_view (T.blocks tag.now) seat.old.me.0, [])) }
{
    let _ = tag;
    top.split_seat::<DealWriter<B>>(seat)
}

// The seat of the next reader.
pub(crate) fn add_reader(top: &Top, seat: &mut Place, number: usize) -> Place
    requires at { IsAt top.now.table_id top.now.key seat.old
        × (seat.old.me.0.role ≡ Nobody number) }
    requires inside { number < top.now.key.readers }
    ensures seat { (seat.new.table_id ≡ seat.old.table_id)
        × (seat.new.me.0 ≡ dealing seat.old.me.0) }
    ensures reader { (result.table_id ≡ seat.old.table_id)
        × (result.me ≡ (reader_view seat.old.me.0, [])) }
{
    let _ = number;
    top.split_seat::<DealReader>(seat)
}

// All readers, in order of number.
pub(crate) fn deal_readers(
    alloc: Global,
    top: &Top,
    seat: &mut Place,
    sizes: Sizes,
) -> Result<Vec<Reader>, AllocError>
    requires at { IsAt top.now.table_id sizes seat.old × IsSizes sizes × (sizes ≡ top.now.key) }
    requires dealer { seat.old.me.0.role ≡ Nobody 0 }
    requires blocks { (length (blocks_of seat.old) ≤ 2 ^ 62)
        × AreWide sizes.width (blocks_of seat.old) }
    ensures count { IfOk result (λ v. length v.items ≡ sizes.readers) }
    ensures all { IfOk result (λ v.
        All (λ r. IsNewReader top.now.table_id sizes (blocks_of seat.old) r.seat) v.items) }
    ensures numbers { IfOk result (λ v. map (λ r. number_of r.seat) v.items
        ≡ range_with_len 0 sizes.readers) }
{
    let mut readers = Vec::with_capacity(alloc, sizes.readers)?;
    for number in 0..sizes.readers {
        let place = add_reader(top, seat, number);
        readers.push(Reader::new(place, number))?;
    }
    Ok(readers)
}

// The table, the writer and the readers.
pub(crate) fn open<T: BlockTag>(
    alloc: Global,
    tag: &T,
    sizes: Sizes,
) -> Result<(History, Writer, Vec<Reader>), AllocError>
    requires sizes { IsSizes sizes }
    requires blocks { (length (T.blocks tag.now) ≤ 2 ^ 62)
        × AreWide sizes.width (T.blocks tag.now) }
    ensures history { IfOk result (λ t. t.0.sizes ≡ sizes) }
    ensures writer { IfOk result (λ t.
        IsNewWriter t.0.table.shared.table_id t.0.sizes (T.blocks tag.now) t.1.seat) }
    ensures count { IfOk result (λ t. length t.2.items ≡ sizes.readers) }
    ensures all { IfOk result (λ t. All (λ r.
        IsNewReader t.0.table.shared.table_id t.0.sizes (T.blocks tag.now) r.seat) t.2.items) }
    ensures numbers { IfOk result (λ t. map (λ r. number_of r.seat) t.2.items
        ≡ range_with_len 0 sizes.readers) }
{
    let words = vec![in alloc; 0; 1 + sizes.readers + sizes.slots * sizes.width]?;
    let (table, mut dealer) = Table::of_words(alloc, words.as_slice(), &sizes)?;
    let writer = add_writer::<T, Brand>(&table.shared, &mut dealer, tag);
    let readers = deal_readers(alloc, &table.shared, &mut dealer, sizes)?;
    Ok((History::over(table, sizes), Writer::new(writer), readers))
}

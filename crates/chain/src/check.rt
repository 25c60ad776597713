//! Going through a whole chain.
ghost use Rattle.std.specs.Prelude.{◌≡◌};
ghost use Rattle.table.specs.Held.{rows_of};
ghost use Rattle.chain.specs.Reader.{chain_of, checked};

use crate::access::Access;
use crate::fault::RackFault;
use crate::reader::Chain;
use table::Table;

/// Whether a whole chain passes its checks, or the first refusal from left to right.
pub fn check<'a>(table: &'a Table, access: Access, message: &'a [u8]) -> Result<(), RackFault>
    ensures { result ≡ checked (chain_of access (rows_of table.now) message.now).refusal }
{
    let mut chain = Chain::new(table, access, message);
    while let Some(_item) = chain.next()? {}
    Ok(())
}

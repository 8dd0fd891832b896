//! Whether a table can hold a partition.

ghost use Rattle.std.specs.Prelude.{◌↔◌, IsTrue};
ghost use Rattle.rc_writes.specs.Allowed.{ChangeFits};

use rc_mutation::Partition;
use rc_schema::Schema;
use rc_writes::change_fits;

/// Whether a table of the schema can hold the partition: its static row, each row with its key, and the ends of each range
/// tombstone are of the schema. Tables are written only of partitions that fit.
pub fn part_fits(part: &Partition, schema: &Schema) -> bool
    ensures { IsTrue result ↔ ChangeFits schema.now part.now.change }
{
    change_fits(&part.change, schema)
}

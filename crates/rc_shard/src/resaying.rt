//! What a reader is told anew once it goes on past the row cache.
ghost use Rattle.std.specs.Prelude.{◌++◌, List};
ghost use Rattle.rc_schema.specs.SchemaValue.{SchemaValue};
ghost use Rattle.rc_mutation.specs.declared.mutations.Mutation.{Mutation};
ghost use Rattle.rc_tfile.specs.declared.info.TableInfo.{TableInfo};
ghost use Rattle.rc_memory.specs.Memory.{Memory};
ghost use Rattle.rc_paging.specs.declared.pages.OpenReader.{OpenReader};
ghost use Rattle.rc_paging.specs.Past.{lines_past};
ghost use Rattle.rc_machine.specs.State.{Reader, State};
ghost use Rattle.rc_shard.specs.calls.Resaying.{IsReadAnew, IsReaderOver, IsToldAnew};

use rc_opened::laws::writes_have_a_join;
use rc_paging::laws::{a_reader_goes_on_in_its_slice, a_reader_goes_on_in_one_answer};
use rc_query::laws::answer_of_joined_writes;
use rc_spliced::laws::{
    a_splice_fits, an_answer_is_cut_behind_each_line, two_mutations_have_a_splice,
};

// What is left to a reader that goes on past the row cache, over what the tables of its opening say now, is what is left to the machine's once it is told that anew: what the tables said where the folder is told, and else what they say now, behind the lines that are settled.
pub(crate) fn what_is_told_anew()
    ensures { (schema : SchemaValue) (m : State) (first : List TableInfo) (memory : Memory) (o : OpenReader) (below sealed active : List Mutation) (r : Reader) (read : Mutation) → IsReaderOver schema m first memory o below sealed active r → IsReadAnew schema m first r.key read →
        IsToldAnew m first r (lines_past below read (sealed ++ active) o.behind o.remainder.slice) }
{
    a_reader_goes_on_in_its_slice();
    a_reader_goes_on_in_one_answer();
    a_splice_fits();
    an_answer_is_cut_behind_each_line();
    answer_of_joined_writes();
    two_mutations_have_a_splice();
    writes_have_a_join();
}

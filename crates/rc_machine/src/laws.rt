//! Laws of the step, each the contract of a function that does nothing.

ghost use Rattle.std.specs.Prelude.{◌≡◌, ◌++◌, ℕ, List, [], Option, Some, None, false, true, not};
ghost use Rattle.std.specs.List.{list_all};
ghost use Rattle.rc_outside.specs.Files.{Files};
ghost use Rattle.rc_position.specs.declared.slices.Slice.{Slice};
ghost use Rattle.rc_schema.specs.SchemaValue.{SchemaValue};
ghost use Rattle.rc_mutation.specs.declared.mutations.Mutation.{Mutation};
ghost use Rattle.rc_mutation.specs.Source.{changes_to};
ghost use Rattle.rc_query.specs.Answer.{answer};
ghost use Rattle.rc_tfile.specs.declared.info.TableInfo.{TableInfo};
ghost use Rattle.rc_lines.specs.declared.commands.Command.{Command};
ghost use Rattle.rc_lines.specs.declared.commands.Reply.{Reply};
ghost use Rattle.rc_machine.specs.State.{State, Reader, Table, opened_state, reader_of, unstored_writes};
ghost use Rattle.rc_machine.specs.Steps.{Steps, AfterSteps, IsSaid, is_of};
ghost use Rattle.rc_machine.specs.Flushed.{Flush, HasFlushed, writes_of_steps};
ghost use Rattle.rc_machine.specs.OneAnswer.{GivesAlong};

/// An open reader stays as it is in each step, and over any steps, that neither read from it nor close it: no write, no flush, no refusal and no
/// other reader changes what it gives.
pub fn readers_are_fixed()
    ensures step { (m : State) (id : ℕ) (r : Reader) (command : Command) (reply : Reply) (new : State) →
        reader_of id m ≡ Some r → is_of id command ≡ false → Steps m command reply new → reader_of id new ≡ Some r }
    ensures steps { (m : State) (id : ℕ) (r : Reader) (steps : List (Command × Reply)) (new : State) →
        reader_of id m ≡ Some r → list_all (λ step. not (is_of id step.0)) steps ≡ true → AfterSteps m steps new → reader_of id new ≡ Some r }
{}

/// Over any steps from its opening on a reader gives one answer. There is something that the tables may have said when it was opened, such that its reads,
/// until it is closed, give the lines of the answer to that and to the writes of then: each as many as it asks for of those behind what was given before,
/// and it tells whether there are more. So nobody can see that a read was told anew what the tables say.
pub fn a_reader_gives_one_answer()
    ensures { (m : State) (id : ℕ) (key : List ℕ) (slice : Slice) (opened : State) (steps : List (Command × Reply)) (new : State) →
        Steps m (Command.OpenRead id key slice) Reply.Fine opened → AfterSteps opened steps new →
        (said : List Mutation) × IsSaid m key said × GivesAlong id steps (answer (said ++ changes_to key (unstored_writes m)) slice) }
{}

/// A reader that was closed is not open.
pub fn closed_readers_are_gone()
    ensures { (m : State) (id : ℕ) (new : State) → Steps m (Command.Close id) Reply.Fine new → reader_of id new ≡ None }
{}

/// Over any steps from the opening on, the accepted writes are those of the commands that were done, in order; and the tables and files are those of
/// the folder, and then those that were flushed, which hold the first of the accepted writes, one run of them behind another: each table has the
/// parts of its run, and its file is the table's text.
pub fn tables_hold_what_was_flushed()
    ensures { (segments : ℕ) (files : Option Files) (schema : SchemaValue) (tables : List Table) (infos : List TableInfo) (steps : List (Command × Reply)) (m : State) →
        AfterSteps (opened_state segments files schema tables infos) steps m → ((flushes : List Flush) × HasFlushed (opened_state segments files schema tables infos) m flushes) × (m.log ≡ writes_of_steps steps) }
{}

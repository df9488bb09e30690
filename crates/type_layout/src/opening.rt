//! A run with what is inside its values. Types may nest as deep as there are types, so nothing here recurs.

ghost use Rattle.std.specs.Prelude.{◌≡◌, ◌≤◌, ◌<◌, ◌-◌, ◌^◌, ◌++◌, ◌∷◌, [], length, map, slice_get, IfSome, OnOk};
ghost use Rattle.std.specs.Option.{option_map, option_to_list};
ghost use Rattle.c_types.specs.Table.{IsNumber, members};
ghost use Rattle.type_layout.specs.Runs.{end_of};
ghost use Rattle.type_layout.specs.Search.{run_in};
ghost use Rattle.type_layout.specs.Pending.{AreFrames, IsFrame, IsRun, if_to_come, inside_in, member_in, parts_in, pending, runs_in, to_come};

use crate::object_runs::{Run, size_in};
use c_types::{CType, TypeTable, law_table};
use std::alloc::{AllocError, Global};

/// Values of one type of which nothing inside is listed yet but some parts of the first: the number of its next part,
/// counted from 0, and that part.
#[derive(Clone, Copy)]
pub(crate) struct Frame {
    values: Run,
    part: usize,
    next: Run,
}

/// The member of this number of the first of some values as a run, if there is one that is not flexible.
fn member_part(types: &TypeTable, values: Run, part: usize) -> Option<Run>
    requires values { IsNumber types.now values.kind }
    requires member { IfSome (slice_get (members types.now values.kind) part) (λ m. IsNumber types.now m.kind) }
    requires fits { IfSome (member_in types.now values part) (λ run. end_of run < 2 ^ 64) }
    ensures part { option_map (run_in types.now) result ≡ member_in types.now values part }
    ensures few { IfSome result (λ run. part < 2 ^ 64 - 1) }
{
    law_table(types);
    let members = types.members(values.kind);
    if part >= members.len() {
        return None;
    }
    let member = &members[part];
    if matches!(types.get(member.kind), CType::Flexible(_)) {
        return None;
    }
    Some(Run {
        kind: member.kind,
        lo: values.lo + u64::from(member.offset),
        count: 1,
    })
}

/// The part of this number of the first of some values, if it has so many.
fn part_of(types: &TypeTable, values: Run, part: usize) -> Option<Run>
    requires values { IsRun types.now values }
    requires some { 1 ≤ values.count }
    requires place { part ≤ length (parts_in types.now values) }
    ensures part { option_map (run_in types.now) result ≡ slice_get (parts_in types.now values) part }
    ensures run { IfSome result (λ run. IsRun types.now run) }
    ensures few { IfSome result (λ run. part < 2 ^ 64 - 1) }
{
    law_table(types);
    let CType::Array(of, count) = types.get(values.kind) else {
        return member_part(types, values, part);
    };
    if part > 0 {
        return None;
    }
    Some(Run {
        kind: of,
        lo: values.lo,
        count: u64::from(count),
    })
}

/// What is inside some values, if there is something.
fn frame_of(types: &TypeTable, values: Run) -> Option<Frame>
    requires { IsRun types.now values }
    ensures frame { IfSome result (λ frame. IsFrame types.now frame) }
    ensures inside { if_to_come types.now result ≡ inside_in types.now values }
{
    law_table(types);
    if values.count == 0 {
        return None;
    }
    let next = part_of(types, values, 0)?;
    Some(Frame {
        values,
        part: 0,
        next,
    })
}

/// A frame without its next part and what is inside that, if there is something left.
fn rest_of(types: &TypeTable, frame: Frame) -> Option<Frame>
    requires { IsFrame types.now frame }
    ensures frame { IfSome result (λ rest. IsFrame types.now rest) }
    ensures rest { to_come types.now frame ≡ runs_in types.now frame.next ++ if_to_come types.now result }
{
    let values = frame.values;
    let part = frame.part + 1;
    if let Some(next) = part_of(types, values, part) {
        return Some(Frame { values, part, next });
    }
    let later = Run {
        kind: values.kind,
        lo: values.lo + size_in(types, values.kind),
        count: values.count - 1,
    };
    frame_of(types, later)
}

/// Puts a frame on a stack, if there is one.
fn put(stack: &mut Vec<Frame>, frame: Option<Frame>) -> Result<(), AllocError>
    ensures { OnOk result (stack.new.items ≡ stack.old.items ++ option_to_list frame) }
{
    if let Some(frame) = frame {
        stack.push(frame)?;
    }
    Ok(())
}

/// Lists the next part of a frame, and puts on the stack what is left of the frame and what is inside the part.
fn list_part(
    types: &TypeTable,
    frame: Frame,
    stack: &mut Vec<Frame>,
    runs: &mut Vec<Run>,
) -> Result<(), AllocError>
    requires frame { IsFrame types.now frame }
    requires stack { AreFrames types.now stack.old.items }
    ensures run { OnOk result (runs.new.items ≡ runs.old.items ++ frame.next ∷ []) }
    ensures stack { OnOk result (AreFrames types.now stack.new.items) }
    ensures pending { OnOk result (to_come types.now frame ++ pending types.now stack.old.items ≡
        run_in types.now frame.next ∷ pending types.now stack.new.items) }
{
    let rest = rest_of(types, frame);
    let inner = frame_of(types, frame.next);
    runs.push(frame.next)?;
    put(stack, rest)?;
    put(stack, inner)?;
    Ok(())
}

/// Lists a run and what is inside its values.
pub(crate) fn list_run(
    alloc: Global,
    types: &TypeTable,
    run: Run,
    runs: &mut Vec<Run>,
) -> Result<(), AllocError>
    requires { IsRun types.now run }
    ensures { OnOk result
        (map (run_in types.now) runs.new.items ≡ map (run_in types.now) runs.old.items ++ runs_in types.now run) }
{
    let mut stack = Vec::new(alloc);
    runs.push(run)?;
    put(&mut stack, frame_of(types, run))?;
    'opening: while let Some(frame) = stack.pop() {
        list_part(types, frame, &mut stack, runs)?;
    }
    Ok(())
}

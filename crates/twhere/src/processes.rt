//! The process that runs, the one that was interrupted, and those that are queued.

ghost use Rattle.std.specs.Prelude.{◌≡◌, ◌<◌, ◌%◌, ◌^◌};
ghost use Rattle.tfiles.specs.Outputs.{Tells};
ghost use Rattle.twhere.specs.Standing as spec;

use crate::facts::{put_code, put_if, put_place, put_word, put_word_fact};
use tcpu::Registers;
use tfiles::CountedWrite;
use tfiles::writing::output::Output;
use tproc::Processor;
use tword::Word;

/// The process that runs, or that broke the rule; where there is none, only the flags.
pub(crate) fn put_running<W: CountedWrite>(out: &mut Output<'_, W>, processor: &Processor)
    ensures { Tells W.contents W.failures out.old out.new
        (spec.running_facts processor.now processor.now.control.current) }
{
    processor.know_placed();
    match processor.current() {
        Some(priority) => put_process(
            out,
            b"  runs          ",
            processor,
            priority,
            &processor.registers(),
        ),
        None => put_idle(out, &processor.registers()),
    }
}

/// Writes that no process runs, and which flags are set.
fn put_idle<W: CountedWrite>(out: &mut Output<'_, W>, registers: &Registers)
    ensures { Tells W.contents W.failures out.old out.new (spec.idle_facts registers.now) }
{
    out.put(b"  runs          none\n");
    put_flags(out, registers);
}

/// The low process that was interrupted, if one was.
pub(crate) fn put_interrupted<W: CountedWrite>(out: &mut Output<'_, W>, processor: &Processor)
    ensures { Tells W.contents W.failures out.old out.new
        (spec.interrupted_facts processor.now processor.now.control.interrupted) }
{
    processor.know_placed();
    if let Some(kept) = processor.interrupted() {
        put_process(out, b"  interrupted   ", processor, 1, &kept.registers);
    }
}

/// A process with its registers.
fn put_process<W: CountedWrite>(
    out: &mut Output<'_, W>,
    name: &[u8],
    processor: &Processor,
    priority: u8,
    registers: &Registers,
)
    requires priority { priority < 2 }
    requires workspace { registers.now.wptr % 4 ≡ 0 }
    requires word { registers.now.wptr < 2 ^ 32 }
    ensures { Tells W.contents W.failures out.old out.new
        (spec.process_facts name.now processor.now priority registers.now) }
{
    out.put(name);
    put_word(out, Word::new(registers.wptr.get() + u32::from(priority)));
    put_priority(out, priority);
    out.put(b"\n");
    put_iptr(out, processor, registers.iptr);
    put_registers(out, registers);
    put_flags(out, registers);
}

/// A priority.
fn put_priority<W: CountedWrite>(out: &mut Output<'_, W>, priority: u8)
    ensures { Tells W.contents W.failures out.old out.new (spec.priority_text priority) }
{
    match priority {
        0 => out.put(b" high"),
        _ => out.put(b" low"),
    }
}

/// Iptr, with the instruction there.
fn put_iptr<W: CountedWrite>(out: &mut Output<'_, W>, processor: &Processor, iptr: Word)
    ensures { Tells W.contents W.failures out.old out.new (spec.iptr_fact processor.now iptr) }
{
    out.put(b"    Iptr        ");
    put_code(out, processor, iptr);
    out.put(b"\n");
}

/// Writes the registers A, B, C and Wptr, each on a line.
fn put_registers<W: CountedWrite>(out: &mut Output<'_, W>, registers: &Registers)
    ensures { Tells W.contents W.failures out.old out.new (spec.register_facts registers.now) }
{
    put_word_fact(out, b"    A           ", registers.a);
    put_word_fact(out, b"    B           ", registers.b);
    put_word_fact(out, b"    C           ", registers.c);
    put_word_fact(out, b"    Wptr        ", registers.wptr);
}

/// The flags that are set.
fn put_flags<W: CountedWrite>(out: &mut Output<'_, W>, registers: &Registers)
    ensures { Tells W.contents W.failures out.old out.new (spec.flag_facts registers.now) }
{
    put_if(out, registers.error, b"    Error       set\n");
    put_if(out, registers.halt_on_error, b"    HaltOnError set\n");
}

/// The processes of a queue, each on a line behind its name.
pub(crate) fn put_queue<W: CountedWrite>(
    out: &mut Output<'_, W>,
    name: &[u8],
    processor: &Processor,
    processes: &[Word],
)
    ensures { Tells W.contents W.failures out.old out.new
        (spec.queue_facts name.now processor.now processes.now) }
{
    for process in processes {
        put_queued(out, name, processor, *process);
    }
}

/// Writes a process of a queue, on a line behind the queue's name.
fn put_queued<W: CountedWrite>(
    out: &mut Output<'_, W>,
    name: &[u8],
    processor: &Processor,
    process: Word,
)
    ensures { Tells W.contents W.failures out.old out.new (spec.queued_fact name.now processor.now process) }
{
    out.put(name);
    put_place(out, processor, process);
    out.put(b"\n");
}

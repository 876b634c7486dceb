//! Where a line enters: the equation of one signal, or what an observed point reads.
ghost use Rattle.netlist.specs.Lines.{IsLineOf};
ghost use Rattle.label_events.specs.Lines.{IsLinePlace};

use netlist::{Core, Line, SignalId};

/// What a line is for the evaluator: part of one signal's equation, or of what is observed and of no equation.
#[derive(Clone, Copy, PartialEq, Eq)]
pub enum LinePlace {
    /// The stem of the signal, or a pin of its gate.
    Signal(SignalId),
    /// An output or a cell reads the signal by it.
    Point(SignalId),
}

/// Where a line of the netlist enters.
pub fn line_place(core: &Core, line: &Line) -> LinePlace
    requires { IsLineOf core.now line.now }
    ensures { IsLinePlace core.now line.now result }
{
    let netlist = core.netlist();
    netlist.sound();
    match line {
        Line::Stem(x) => LinePlace::Signal(*x),
        Line::Out(x) => LinePlace::Point(*x),
        Line::Pin(z, _) => {
            let definition = netlist.definition(*z);
            if definition.kind().is_flip_flop() {
                LinePlace::Point(definition.pins()[0])
            } else {
                LinePlace::Signal(*z)
            }
        }
    }
}

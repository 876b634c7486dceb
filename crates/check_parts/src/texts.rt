//! The texts that both checks read alike: the netlist and the STIL file.
ghost use Rattle.std.specs.Prelude.{◌<◌, ◌^◌, Ok, MatchResult, length, IfOk};
ghost use Rattle.bench_text.specs.Bytes.{lines};
ghost use Rattle.netlist.specs.Designs.{IsDesign};
ghost use Rattle.bench_text.specs.Reading.{IsRead};
ghost use Rattle.stil_read.specs.Reading.{StandsFor};
ghost use Rattle.check_parts.specs.Texts.{IsNetFault, IsStilFault};

use bench_text::{BenchFault, Names, read};
use good_files::CheckFault;
use netlist::Core;
use std::alloc::Global;
use stil_read::{StilFault, read_stil};
use stil_write::StilFile;

/// The five texts: of the netlist, the scanned netlist, the test, the certificate and the report.
#[derive(Clone, Copy)]
pub struct FiveTexts<'a> {
    pub net: &'a [u8],
    pub scan: &'a [u8],
    pub stil: &'a [u8],
    pub certificate: &'a [u8],
    pub report: &'a [u8],
}

/// The netlist of the first text.
pub fn core_of(alloc: Global, net: &[u8]) -> Result<Core, CheckFault>
    requires { length (lines net.now) < 2 ^ 32 }
    ensures read { MatchResult result (λ core. IsRead Names.Design net.now (Ok core)) (IsNetFault net.now) }
    ensures design { IfOk result IsDesign }
{
    let netlist = match read(alloc, net, Names::Design) {
        Ok(netlist) => netlist,
        Err(BenchFault::Refused(refusal)) => return Err(CheckFault::Netlist(refusal)),
        Err(BenchFault::NoMemory) => return Err(CheckFault::NoMemory),
    };
    match Core::of(alloc, netlist) {
        Ok(core) => Ok(core),
        Err(_) => Err(CheckFault::NoMemory),
    }
}

/// The file that the third text stands for.
pub fn file_of(alloc: Global, stil: &[u8]) -> Result<StilFile, CheckFault>
    ensures { MatchResult result (StandsFor stil.now) (IsStilFault stil.now) }
{
    match read_stil(alloc, stil) {
        Ok(file) => Ok(file),
        Err(StilFault::NotStil) => Err(CheckFault::NotStil),
        Err(StilFault::NoMemory) => Err(CheckFault::NoMemory),
    }
}

//! Calls of machines that have none of the five sets.

ghost use Rattle.std.specs.Prelude.{◌≡◌};
ghost use Rattle.sf_profile.specs.Others.{other_names};
ghost use Rattle.sf_profile.specs.Plans.{place_from};

use crate::naming::place_of;

/// The names of calls in `src/syscalls.csv` of libseccomp 2.6.0 (Linux 6.13) that no set of `policies/names.toml` has,
/// sorted. Only m68k, mips, ppc, riscv64 and s390 have them.
const OTHER_NAMES: [&str; 22] = [
    "atomic_barrier",
    "atomic_cmpxchg_32",
    "cachectl",
    "getpagesize",
    "multiplexer",
    "riscv_flush_icache",
    "riscv_hwprobe",
    "rtas",
    "s390_guarded_storage",
    "s390_pci_mmio_read",
    "s390_pci_mmio_write",
    "s390_runtime_instr",
    "s390_sthyi",
    "spu_create",
    "spu_run",
    "subpage_prot",
    "swapcontext",
    "switch_endian",
    "sys_debug_setcontext",
    "syscall",
    "sysmips",
    "timerfd",
];

pub(crate) fn place_of_other(name: &str) -> Option<usize>
    ensures { result ≡ place_from 0 name.now other_names }
{
    place_of(name, OTHER_NAMES.as_slice())
}

// The demands at the calls that C links: what crates options and theorems say of the definitions, said of the structs and buffers that each dhcpopt_ call gives.
// Each statement begins with the contract of its call, word for word, and says what follows of the struct. The functions below each make one call, so that what they
// ensure is said of the call itself; no library has them.
// A new call gets here (1) its demand 1, in specs/Refusals: `RefusedOnlyBy` with its rows where it fills a lent buffer, else a record as those there; (2) what demand 2
// says of what it gives, in specs/Answers or specs/Sheets; (3) both in `proved`, whose contract names every statement of specs: one that is not proved is refused there;
// and a function that makes the call, with them as its contract.
#![tactic(auto)]

ghost use Rattle.c_theorems.specs.Refusals.{LookupRefusedForC, IndexLookupRefusedForC, DataRefusedForC, TextRefusedForC, PresentRefusedForC, RecordsRefusedForC, CopyRefusedForC, VendorRecordsRefusedForC, BuildRefusedForC};
ghost use Rattle.c_theorems.specs.Refusals.{WriteRefusedForC, NoRoomForC, VendorWriteRefusedForC, CheckRefusedForC, ChooseRefusedForC, GroupRefusedForC, UngroupRefusedForC, ProfileRefusedForC};
ghost use Rattle.c_theorems.specs.Answers.{LookupForC, AbsentForC, IndexLookupForC, DataForC, CopyForC, PresentForC, AddressesForC, ProfileForC, SameNamedForC};
ghost use Rattle.c_theorems.specs.Sheets.{SheetBackForC, Demand3ForC, OthersForC};
ghost use Rattle.c_theorems.specs.RelayRefusals.{RelayRecordsRefusedForC, RelayWriteRefusedForC, RelayRefusedBy, RelayWriteRow};
ghost use Rattle.c_theorems.specs.Routes.{RoutesWriteRefusedForC, IgnoredRefusedForC, IgnoredForC, RouteStepForC, RoutesForC, RoutesBackForC, RoutesWriteRow, IgnoredRefusedBy, IgnoredToldRight, RouteTold};
ghost use Rattle.options.specs.ReadingClaims.{IsAccepted};
ghost use Rattle.options.specs.GroupedFile.{FirstOf};
ghost use Rattle.options.specs.GroupedClaims.{ChoiceRow, MoveRow, BackRow};
ghost use Rattle.options.specs.AnswerClaims.{CopyRow};
ghost use Rattle.options.specs.ProfileClaims.{Reply};
ghost use Rattle.c_theorems.specs.Refusals.{known, FillRefused, RecordsRow, LookupRefusedBy, PresentRefusedBy, WriteRefusedBy, CheckRefusedBy, EmptyIfRefused, IndexRefusedBy, VendorReadRow, VendorWriteRow, BuildRow, ProfileRefusedBy};
ghost use Rattle.c_theorems.specs.Answers.{ToldRight, DataToldRight, PresentToldRight, ProfileToldRight};

use dhcpopt_profile::PlainProfile;
use dhcpopt_reader::{PlainAnswer, PlainCodes, PlainExtent, PlainRelay};
use dhcpopt_routes::{PlainIgnored, PlainRoute};
use dhcpopt_writer::PlainWrote;
use filled::PlainFilled;
use groups::PlainChecked;

// Demand 1, of the calls that read and of those that write; then demands 2 and 3.
pub fn proved()
    ensures { LookupRefusedForC × IndexLookupRefusedForC × DataRefusedForC × TextRefusedForC × PresentRefusedForC × RecordsRefusedForC × CopyRefusedForC × VendorRecordsRefusedForC × BuildRefusedForC × WriteRefusedForC × NoRoomForC × VendorWriteRefusedForC × CheckRefusedForC × ChooseRefusedForC × GroupRefusedForC × UngroupRefusedForC × RelayRecordsRefusedForC × RelayWriteRefusedForC × LookupForC × AbsentForC × IndexLookupForC × DataForC × CopyForC × PresentForC × AddressesForC × ProfileRefusedForC × ProfileForC × SameNamedForC × SheetBackForC × Demand3ForC × OthersForC × RoutesWriteRefusedForC × IgnoredRefusedForC × IgnoredForC × RouteStepForC × RoutesForC × RoutesBackForC }
{}

// ---- The calls themselves: each is called here, and what its contract gives is what the statements above speak of.

pub fn lookup_call(m: &[u8], k0: u64, k1: u64, k2: u64, k3: u64, code: u8) -> PlainAnswer
    ensures { LookupRefusedBy (known k0 k1 k2 k3) m.now code result × ToldRight (known k0 k1 k2 k3) m.now code result }
{
    dhcpopt_reader::dhcpopt_lookup(m, k0, k1, k2, k3, code)
}

pub fn data_call(m: &[u8], code: u8) -> PlainExtent
    ensures { EmptyIfRefused m.now code result × DataToldRight m.now code result }
{
    dhcpopt_reader::dhcpopt_data(m, code)
}

pub fn present_call(m: &[u8]) -> PlainCodes
    ensures { PresentRefusedBy m.now result × (IsAccepted m.now → PresentToldRight m.now result) }
{
    dhcpopt_reader::dhcpopt_present(m)
}

pub fn records_call(m: &[u8], out: &mut [u8]) -> PlainFilled
    ensures { FillRefused (RecordsRow m.now out.old) out.old result out.new }
{
    dhcpopt_reader::dhcpopt_records(m, out)
}

pub fn copy_call(m: &[u8], code: u8, out: &mut [u8]) -> PlainFilled
    ensures { FillRefused (CopyRow m.now code out.old) out.old result out.new }
{
    dhcpopt_reader::dhcpopt_copy(m, code, out)
}

pub fn write_call(s: &[u8], m: &mut [u8], permission: u8) -> PlainWrote
    ensures { WriteRefusedBy s.now m.old permission result m.new }
{
    dhcpopt_writer::dhcpopt_write(s, m, permission)
}

pub fn text_call(m: &[u8], k0: u64, k1: u64, k2: u64, k3: u64, code: u8) -> PlainExtent
    ensures { EmptyIfRefused m.now code result }
{
    dhcpopt_reader::dhcpopt_text(m, k0, k1, k2, k3, code)
}

pub fn vendor_records_call(bytes: &[u8], out: &mut [u8]) -> PlainFilled
    ensures { FillRefused (VendorReadRow bytes.now out.old) out.old result out.new }
{
    dhcpopt_reader::dhcpopt_vendor_records(bytes, out)
}

pub fn index_build_call(m: &[u8], index: &mut [u16]) -> PlainFilled
    ensures { FillRefused (BuildRow m.now index.old) index.old result index.new }
{
    dhcpopt_index::dhcpopt_index_build(m, index)
}

pub fn index_lookup_call(
    m: &[u8],
    index: &[u16],
    k0: u64,
    k1: u64,
    k2: u64,
    k3: u64,
    code: u8,
) -> PlainAnswer
    ensures { IndexRefusedBy (known k0 k1 k2 k3) m.now index.now code result }
{
    dhcpopt_index::dhcpopt_index_lookup(m, index, k0, k1, k2, k3, code)
}

pub fn vendor_write_call(s: &[u8], out: &mut [u8]) -> PlainFilled
    ensures { FillRefused (VendorWriteRow s.now out.old) out.old result out.new }
{
    dhcpopt_writer::dhcpopt_vendor_write(s, out)
}

pub fn check_grouped_call(f: &[u8]) -> PlainChecked
    ensures { CheckRefusedBy f.now result }
{
    dhcpopt_writer::dhcpopt_check_grouped(f)
}

pub fn choose_call(f: &[u8], class: &[u8], out: &mut [u8]) -> PlainFilled
    ensures { FillRefused (FirstOf (ChoiceRow f.now class.now out.old)) out.old result out.new }
{
    dhcpopt_writer::dhcpopt_choose(f, class, out)
}

pub fn group_call(s: &[u8], out: &mut [u8]) -> PlainFilled
    ensures { FillRefused (FirstOf (MoveRow s.now out.old)) out.old result out.new }
{
    dhcpopt_writer::dhcpopt_group(s, out)
}

pub fn ungroup_call(f: &[u8], out: &mut [u8]) -> PlainFilled
    ensures { FillRefused (FirstOf (BackRow f.now out.old)) out.old result out.new }
{
    dhcpopt_writer::dhcpopt_ungroup(f, out)
}

pub fn profile_call(m: &[u8]) -> PlainProfile
    ensures { ProfileRefusedBy m.now result × (IsAccepted m.now → Reply m.now → ProfileToldRight m.now result) }
{
    dhcpopt_profile::dhcpopt_profile(m)
}

pub fn relay_records_call(bytes: &[u8], out: &mut [u8]) -> PlainRelay
    ensures { RelayRefusedBy bytes.now out.old result out.new }
{
    dhcpopt_reader::dhcpopt_relay_records(bytes, out)
}

pub fn relay_write_call(s: &[u8], out: &mut [u8]) -> PlainFilled
    ensures { FillRefused (RelayWriteRow s.now out.old) out.old result out.new }
{
    dhcpopt_writer::dhcpopt_relay_write(s, out)
}

pub fn route_step_call(bytes: &[u8], at: usize) -> PlainRoute
    ensures { RouteTold bytes.now at result }
{
    dhcpopt_routes::dhcpopt_route_step(bytes, at)
}

pub fn routes_write_call(s: &[u8], out: &mut [u8]) -> PlainFilled
    ensures { FillRefused (RoutesWriteRow s.now out.old) out.old result out.new }
{
    dhcpopt_routes::dhcpopt_routes_write(s, out)
}

pub fn routes_ignored_call(m: &[u8], k0: u64, k1: u64, k2: u64, k3: u64) -> PlainIgnored
    ensures { IgnoredRefusedBy (known k0 k1 k2 k3) m.now result × IgnoredToldRight (known k0 k1 k2 k3) m.now result }
{
    dhcpopt_routes::dhcpopt_routes_ignored(m, k0, k1, k2, k3)
}

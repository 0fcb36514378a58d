// What a device is to its callers.
ghost use Rattle.std.specs.Prelude.{◌≡◌, ℕ, ◌^◌, ◌<◌, ◌≤◌, Bool, List, length};
ghost use Rattle.device.specs.State.{DevState, Sector, bundle};
ghost use Rattle.device.specs.Steps.{read_answer, read_bytes, write_answer, write_step, force_answer, force_step};

use crate::fault::DeviceFault;

// A device of 512-byte sectors. Its meaning has four parts; no call changes more of it than its clauses say.
pub trait Device {
    // how many sectors it has
    ghost size: { Self → ℕ };

    // what each sector holds
    ghost contents: { Self → List Sector };

    // how many more actions it takes
    ghost actions: { Self → ℕ };

    // whether a force came after the last write
    ghost settled: { Self → Bool };

    // the four as one
    ghost state: { Self → DevState };

    ghost four: { (d : Self) → state d ≡ bundle (size d) (contents d) (actions d) (settled d) };

    // the two values are one device at two times: lent from the same place, and the same part of it
    ghost kept: { Self → Self → Type 0 };

    ghost stays: { (d : Self) → kept d d };

    ghost joins: { (x y z : Self) → kept x y → kept y z → kept x z };

    // each sector has its contents, and there are at most 2^30 sectors and fewer than 2^62 actions
    ghost sized: { (d : Self) → length (state d).contents ≡ (state d).size };

    ghost small: { (d : Self) → (state d).size ≤ 2 ^ 30 };

    ghost bounded: { (d : Self) → (state d).actions < 2 ^ 62 };

    fn size(&self) -> u64
        ensures { result ≡ (state self.now).size };

    fn actions_left(&self) -> u64
        ensures { result ≡ (state self.now).actions };

    fn read(&self, sector: u64, out: &mut [u8; 512]) -> Result<(), DeviceFault>
        ensures answer { result ≡ read_answer (state self.now) sector }
        ensures bytes { out.new ≡ read_bytes (state self.now) sector out.old };

    fn write(&mut self, sector: u64, bytes: &[u8; 512]) -> Result<(), DeviceFault>
        ensures answer { result ≡ write_answer (state self.old) sector }
        ensures after { state self.new ≡ write_step (state self.old) sector bytes.now }
        ensures kept { kept self.old self.new };

    fn force(&mut self) -> Result<(), DeviceFault>
        ensures answer { result ≡ force_answer (state self.old) }
        ensures after { state self.new ≡ force_step (state self.old) }
        ensures kept { kept self.old self.new };
}

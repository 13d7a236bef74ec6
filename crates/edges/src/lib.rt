// The packer tried at the edges of its input. Each expected result is worked out from the rules of the device, the volume or the
// run, and not taken from the program.
#![tactic(auto)]

#[cfg(test)]
mod counting;
#[cfg(test)]
mod devices;
#[cfg(test)]
mod floppies;
#[cfg(test)]
mod lookups;
#[cfg(test)]
mod memory;
#[cfg(test)]
mod mounts;
#[cfg(test)]
mod piles;
#[cfg(test)]
mod runs;
#[cfg(test)]
mod volumes;
#[cfg(test)]
mod windows;

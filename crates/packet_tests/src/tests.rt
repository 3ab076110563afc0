mod packets;
mod script_faults;
mod scripts;
mod transfers;

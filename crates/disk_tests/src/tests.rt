mod disks;
mod images;
mod keepings;
mod listings;
mod places;
mod recoveries;
mod rollbacks;
mod stores;

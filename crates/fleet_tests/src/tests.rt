mod fleet_links;
mod fleet_scripts;

//! The packages of the tests, as scripts.

/// The pyramid `base`, whose zooms 0 and 1 have 1 by 1 and 2 by 2 tiles, and the tables `spots` and `photos`.
pub(crate) const BASE: &str = "\
0 srs,25832,ETRS89 / UTM zone 32N,EPSG,25832,projected metres,
0 pyramid,base,Base map,25832,500000000000,5600000000000,501024000000,5601024000000,two
0 matrix,base,0,1,1,256,256,4000000,4000000
0 matrix,base,1,2,2,256,256,2000000,2000000
0 table,spots,attributes,Spots
0 table,photos,media,Photos
";

/// Behind `BASE`, the row 7 of `spots`, the medium 3 of `photos` and the mapping row of both.
pub(crate) const MAPPED: &str = "\
0 row,spots,7,Well,,3
0 media,photos,3,image/jpeg,ffd8ff
0 relation,spot_photos,spots,photos,media
0 map,spot_photos,7,3
";

/// The pyramids `base` and `gap` of kind `two`, `wide` of kind `two` and of a large extent, `free` and `loose` of kind `other`, none
/// with a matrix, and the tables `spots` and `photos`.
pub(crate) const PYRAMIDS: &str = "\
0 srs,25832,ETRS89 / UTM zone 32N,EPSG,25832,projected metres,
0 pyramid,base,Base map,25832,500000000000,5600000000000,501024000000,5601024000000,two
0 pyramid,gap,Gap,25832,500000000000,5600000000000,501024000000,5601024000000,two
0 pyramid,wide,Wide,25832,0,0,2147483648000,2147483648000,two
0 pyramid,free,Free,25832,0,0,1000000,1000000,other
0 pyramid,loose,Loose,25832,-5000,-10000,5000,10000,other
0 table,spots,attributes,Spots
0 table,photos,media,Photos
";

/// The pyramid `base`, and the tables `photos` and `spots`, written in another order than that of their names.
pub(crate) const UNORDERED: &str = "\
! INSERT INTO gpkg_spatial_ref_sys (srs_name, srs_id, organization, organization_coordsys_id, definition, description) VALUES ('UTM 32', 25832, 'EPSG', 25832, 'metres', '')
! INSERT INTO gpkg_contents (table_name, data_type, identifier, description, last_change) VALUES ('spots', 'attributes', 'Spots', '', '2000-02-29T23:59:59.999Z')
! INSERT INTO gpkg_contents (table_name, data_type, identifier, description, last_change, min_x, min_y, max_x, max_y, srs_id) VALUES ('base', 'tiles', 'Base map', '', '1970-01-01T00:00:00.000Z', 500000000000, 5600000000000, 501024000000, 5601024000000, 25832)
! INSERT INTO gpkg_contents (table_name, data_type, identifier, description, last_change) VALUES ('photos', 'attributes', 'Photos', '', '1970-01-01T00:00:00.000Z')
! INSERT INTO mm_tables (table_name, kind) VALUES ('photos', 'media'), ('base', 'two'), ('spots', 'attributes')
! INSERT INTO gpkg_tile_matrix_set (table_name, srs_id, min_x, min_y, max_x, max_y) VALUES ('base', 25832, 500000000000, 5600000000000, 501024000000, 5601024000000)
! INSERT INTO gpkg_tile_matrix (table_name, zoom_level, matrix_width, matrix_height, tile_width, tile_height, pixel_x_size, pixel_y_size) VALUES ('base', 1, 2, 2, 256, 256, 2000000, 2000000)
! INSERT INTO mm_blobs (id, digest, data) VALUES (1, '71563ad80061407ede9c6f316836284bd3710a520c5a792b5eda1cb703690815', x'ffd8'), (2, 'bceef655b5a034911f1c3718ce056531b45ef03b4c7b1f15629e867294011a7d', x'aa'), (3, '449ba17f2a44989a58050282f82fec8663b84f57a6a443d3750033a0c02f8be9', x'89504e'), (4, '6e568e1f67fba258184c78181539e5e8fdee447e49bb706fc0ea34fbf12336a5', x'ffd8ff'), (5, '4bf5122f344554c53bde2ebb8cd2b7e3d1600ad631c385a5d7cce23c7785459a', x'01'), (6, '6e340b9cffb37a989ca544e6bb780a2c78901d3fb33738768511a30617afa01d', x'00')
! INSERT INTO mm_tiles (table_name, zoom_level, tile_column, tile_row, blob) VALUES ('base', 1, 0, 1, 1), ('base', 1, 1, 1, 2), ('base', 1, 1, 0, 3)
! INSERT INTO mm_rows (table_name, id, title, note, amount) VALUES ('spots', 7, 'Well', '', 3), ('spots', 8, 'Gate', 'shut', -1000000000000000), ('photos', 7, 'X', '', 0)
! INSERT INTO mm_media (table_name, id, blob, content_type) VALUES ('photos', 3, 4, 'image/jpeg'), ('photos', 4, 5, 'image/png'), ('spots', 3, 6, 'text/plain')
";

/// A pyramid of two zooms with a tile, a table of rows, a table of media, a relation of both with a mapping row, and an open
/// edition with a piece.
pub(crate) const WHOLE: &str = "\
! INSERT INTO gpkg_spatial_ref_sys VALUES ('UTM 33N', 32633, 'EPSG', 32633, 'EPSG:32633', '');
! INSERT INTO gpkg_contents VALUES ('base', 'tiles', 'Base map', '', '1970-01-01T00:00:00.000Z', 0, 0, 1000, 1000, 32633), ('spots', 'attributes', 'Spots', '', '1970-01-01T00:00:00.000Z', NULL, NULL, NULL, NULL, NULL), ('photos', 'attributes', 'Photos', '', '9999-12-31T23:59:59.999Z', NULL, NULL, NULL, NULL, NULL);
! INSERT INTO mm_tables VALUES ('base', 'two'), ('spots', 'attributes'), ('photos', 'media');
! INSERT INTO gpkg_tile_matrix_set VALUES ('base', 32633, 0, 0, 1000, 1000);
! INSERT INTO gpkg_tile_matrix VALUES ('base', 0, 1, 1, 10, 10, 100, 100), ('base', 1, 1, 1, 20, 20, 50, 50);
! INSERT INTO mm_blobs VALUES (1, '4bf5122f344554c53bde2ebb8cd2b7e3d1600ad631c385a5d7cce23c7785459a', x'01'), (2, 'dbc1b4c900ffe48d575b5da5c638040125f65db0fe3e24494b76ea986457d986', x'02');
! INSERT INTO mm_tiles VALUES ('base', 0, 0, 0, 1);
! INSERT INTO mm_rows VALUES ('spots', 1, 'A', '', 0);
! INSERT INTO mm_media VALUES ('photos', 1, 1, 'image/png');
! INSERT INTO gpkgext_relations (base_table_name, base_primary_column, related_table_name, related_primary_column, relation_name, mapping_table_name) VALUES ('spots', 'id', 'photos', 'id', 'media', 'spot_photos');
! INSERT INTO gpkg_extensions VALUES ('spot_photos', NULL, 'gpkg_related_tables', 'OGC 18-000', 'read-write');
! INSERT INTO mm_map VALUES ('spot_photos', 1, 1);
! INSERT INTO mm_editions VALUES ('e', 'open'), ('f', 'published');
! INSERT INTO mm_pieces VALUES ('e', 1, 'row-drop', 'spots', 1, 0, 0, 0, 0, 0, 0, '', '', NULL), ('e', 2, 'tile', 'base', 0, 0, 0, 0, 0, 0, 0, '', '', 2);
";
